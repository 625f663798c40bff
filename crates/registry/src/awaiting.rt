// Inputs that await an undecided transaction: it is to make their token here.
ghost use Rattle.std.specs.Prelude.{◌≡◌, ◌≤◌, ◌<◌};
ghost use Rattle.transaction.specs.Lists.{any};
ghost use Rattle.model.specs.Shard.{awaits, held_off};
ghost use Rattle.layout.specs.Layout.{known_slots, shard_of, ledger_of, slot_known};
ghost use Rattle.registry.specs.Numbers.{OneEach};
ghost use Rattle.registry.specs.Made.{makes_here};

use crate::deciding::is_undecided;
use crate::finding::place_of_number;
use layout::Words;
use layout::entries::Side;
use transaction::{Input, Output, Transaction};

// The known transaction in a slot has an output of that index, at this shard.
fn makes_here(s: &Words, k: usize, me: u8, index: u8) -> bool
    requires { k < known_slots }
    ensures { result ≡ makes_here me (slot_known s.now k).transaction index }
{
    let at = usize::from(index);
    at < 4 && index < Output::count_at(s, k) && Output::shard_at(s, k, at) == me
}

// The input awaits a known transaction. That is the one of the number which it names, so that only one is asked.
fn awaits_any(s: &Words, me: u8, x: Input) -> bool
    requires { ((shard_of s.now).known ≤ known_slots) × OneEach (ledger_of s.now).known }
    ensures { result ≡ any (awaits me x) (ledger_of s.now).known }
{
    let Some(place) = place_of_number(s, x.token.creator) else {
        return false;
    };
    makes_here(s, place, me, x.token.index) && is_undecided(s, place)
}

// Some input of the transaction that is at this shard does.
pub fn is_held_off(s: &Words, me: u8, t: Transaction) -> bool
    requires { ((shard_of s.now).known ≤ known_slots) × OneEach (ledger_of s.now).known }
    ensures { result ≡ held_off me (ledger_of s.now).known t }
{
    for x in t.used_inputs() {
        if x.token.shard == me && awaits_any(s, me, *x) {
            return true;
        }
    }
    false
}
