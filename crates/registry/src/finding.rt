// Known transactions: by number first, and by every field. A number is known for one transaction only, so that one
// search answers every question.
ghost use Rattle.std.specs.Prelude.{◌≡◌, ◌≤◌, ◌<◌, position, IfSome};
ghost use Rattle.model.specs.Shard.{is_numbered};
ghost use Rattle.model.specs.Said.{says};
ghost use Rattle.model.specs.Steps.{is_for};
ghost use Rattle.model.specs.Cluster.{gave};
ghost use Rattle.layout.specs.Layout.{known_slots, shard_of, ledger_of, slot_known};
ghost use Rattle.registry.specs.Numbers.{OneEach};

use layout::Words;
use layout::counts::known_count;
use layout::entries::{heard_at, number_at, transaction_at};
use transaction::Transaction;
use transaction::equality::same_transaction;

// The place of the known transaction of that number, where it is known. The number alone is handed over: a whole
// transaction would be copied in every turn.
pub fn place_of_number(s: &Words, number: u32) -> Option<usize>
    requires { (shard_of s.now).known ≤ known_slots }
    ensures found { result ≡ position (is_numbered number) (ledger_of s.now).known }
    ensures within { IfSome result (λ place. place < (shard_of s.now).known) }
{
    for i in 0..known_count(s) {
        if number_at(s, i) == number {
            return Some(i);
        }
    }
    None
}

// Every field of it agrees.
// Stays: a function beside `same_transaction`: the one that it compares with stands in a slot, as words.
pub fn same_at(s: &Words, k: usize, t: Transaction) -> bool
    requires { k < known_slots }
    ensures { result ≡ is_for t (slot_known s.now k) }
{
    same_transaction(transaction_at(s, k), t)
}

// The raw verdict, 1 for yes and 0 for no, is the one heard.
// Stays: the verdict as a byte, here and in all calls. Any byte can be handed in, and contracts of calls give 2 its refusal 3.
pub fn says(heard: Option<bool>, verdict: u8) -> bool
    ensures { result ≡ says heard verdict }
{
    heard.is_some_and(|yes| verdict == u8::from(yes))
}

// The shard has given this vote on this transaction.
pub fn has_given(s: &Words, sender: u8, verdict: u8, t: Transaction) -> bool
    requires { ((shard_of s.now).known ≤ known_slots) × OneEach (ledger_of s.now).known }
    ensures { result ≡ gave (ledger_of s.now) sender verdict t }
{
    let Some(place) = place_of_number(s, t.number) else {
        return false;
    };
    says(heard_at(s, place, sender), verdict) && same_at(s, place, t)
}
