// The rows of the tables of refusals that the ledger decides: each function answers the test of one row. `place` is the place of the
// transaction's number among the known ones.
ghost use Rattle.std.specs.Prelude.{◌≡◌, true, false, not, eqb, leb, length, get_or, position};
ghost use Rattle.transaction.specs.Lists.{any};
ghost use Rattle.model.specs.Steps.{house, is_for, entry_of, heard_from};
ghost use Rattle.model.specs.Shard.{is_numbered, is_other, other_verdict, too_full, held_off};
ghost use Rattle.shard.specs.View.{number, view, Sound};

use crate::Vote;
use layout::counts::{held, is_given, is_turned, known_count, own_number};
use layout::entries::heard_at;
use layout::{GENESIS_SLOTS, KNOWN_SLOTS, TOKEN_SLOTS, Words};
use registry::awaiting;
use registry::finding::{same_at, says};
use registry::reserving::{count_here, reserved_here};
use transaction::Transaction;

// 13: a transaction is known here.
pub(crate) fn knows_any(s: &Words) -> bool
    requires { Sound s.now }
    ensures { result ≡ not (eqb (length (view s.now).known) 0) }
{
    known_count(s) != 0
}

// 14: the genesis index was given.
pub(crate) fn was_given(s: &Words, index: u8) -> bool
    ensures { result ≡ get_or (view s.now).given index false }
{
    let at = usize::from(index);
    at < GENESIS_SLOTS && is_given(s, at)
}

// 7: the number, which is known at the place, is that of a different transaction.
pub(crate) fn is_other(s: &Words, place: usize, t: Transaction) -> bool
    requires sound { Sound s.now }
    requires there { position (is_numbered t.number) (view s.now).known ≡ Some place }
    ensures { result ≡ any (is_other t) (view s.now).known }
{
    !same_at(s, place, t)
}

// 9: as many transactions are known as a shard can know.
pub(crate) fn is_full(s: &Words) -> bool
    requires { Sound s.now }
    ensures { result ≡ leb house.transactions (length (view s.now).known) }
{
    KNOWN_SLOTS <= known_count(s)
}

// 10: held tokens, outputs here of undecided transactions and of the new one would pass the limit. A known transaction has at most four
// outputs here, so that most often they need not be counted.
pub(crate) fn is_too_full(s: &Words, t: Transaction) -> bool
    requires { Sound s.now }
    ensures { result ≡ too_full house (number s.now) (view s.now) t }
{
    let me = own_number(s);
    let n = held(s);
    let more = count_here(me, t);
    if n + 4 * known_count(s) + more <= TOKEN_SLOTS {
        return false;
    }
    let waiting = reserved_here(s, me);
    TOKEN_SLOTS < n + waiting + more
}

// 17: an input here names what an undecided transaction is to make here.
pub(crate) fn is_held_off(s: &Words, t: Transaction) -> bool
    requires { Sound s.now }
    ensures { result ≡ held_off (number s.now) (view s.now).known t }
{
    let me = own_number(s);
    awaiting::is_held_off(s, me, t)
}

// A verdict is heard, and it is the other one.
fn is_other_verdict(heard: Option<bool>, verdict: u8) -> bool
    ensures { result ≡ other_verdict heard verdict }
{
    heard.is_some() && !says(heard, verdict)
}

// 12: the other verdict is heard from this sender. Asked where the transaction stands at the place.
pub(crate) fn has_other_verdict(s: &Words, place: usize, vote: &Vote) -> bool
    requires sound { Sound s.now }
    requires there { position (is_numbered vote.now.transaction.number) (view s.now).known ≡ Some place }
    requires known { any (is_for vote.now.transaction) (view s.now).known ≡ true }
    ensures { result ≡ other_verdict (heard_from vote.now.sender (entry_of vote.now.transaction (view s.now).known)) vote.now.verdict }
{
    let heard = heard_at(s, place, vote.sender);
    is_other_verdict(heard, vote.verdict)
}

// 19: the shard has turned.
pub(crate) fn has_turned(s: &Words) -> bool
    ensures { result ≡ (view s.now).turned }
{
    is_turned(s)
}
