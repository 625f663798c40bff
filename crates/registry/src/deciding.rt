// Decision: abort as soon as one no is heard, the shard's own included; commit when votes of all the transaction's
// shards are heard and all are yes. Of a known transaction only who takes part and what they said is read.
ghost use Rattle.std.specs.Prelude.{◌≡◌, map, take, ◌<◌};
ghost use Rattle.model.specs.Steps.{outcome_of};
ghost use Rattle.model.specs.Shard.{is_undecided};
ghost use Rattle.layout.specs.Layout.{known_slots, slot_known};
ghost use Rattle.registry.specs.Decision.{by_said, decision_of, together};

use layout::Words;
use layout::entries::{Side, heard_at};
use model::Outcome;
use transaction::{Input, Output};

// What one shard decides by what it has said.
// Stays: a function. `Outcome` is a type of the crate `model`, and an impl of From belongs there.
fn by_vote(said: Option<bool>) -> Outcome
    ensures { result ≡ by_said said }
{
    match said {
        None => Outcome::Wait,
        Some(true) => Outcome::Commit,
        Some(false) => Outcome::Abort,
    }
}

// What two lots of shards decide together. All are asked: to stop at the first no took longer.
fn both(a: Outcome, b: Outcome) -> Outcome
    ensures { result ≡ together a b }
{
    match (a, b) {
        (Outcome::Abort, _) | (_, Outcome::Abort) => Outcome::Abort,
        (Outcome::Commit, Outcome::Commit) => Outcome::Commit,
        _ => Outcome::Wait,
    }
}

// What the shards of its inputs decide, or those of its outputs.
fn by_side<P: Side>(s: &Words, k: usize) -> Outcome
    requires { k < known_slots }
    ensures { result ≡ decision_of (slot_known s.now k).heard
        (map P.shard (take (P.count (slot_known s.now k).transaction) (P.slots (slot_known s.now k).transaction))) }
{
    let mut decided = Outcome::Commit;
    let n = P::count_at(s, k);
    // Stays: all four slots are gone through, used or not. A loop over the used ones took 1.3 times as long.
    for i in 0..4 {
        if i < n {
            let shard = P::shard_at(s, k, usize::from(i));
            let said = heard_at(s, k, shard);
            decided = both(decided, by_vote(said));
        }
    }
    decided
}

// The outcome of the known transaction in a slot.
pub fn outcome_at(s: &Words, k: usize) -> Outcome
    requires { k < known_slots }
    ensures { result ≡ outcome_of (slot_known s.now k) }
{
    both(by_side::<Input>(s, k), by_side::<Output>(s, k))
}

// Nothing is decided on it.
pub(crate) fn is_undecided(s: &Words, k: usize) -> bool
    requires { k < known_slots }
    ensures { result ≡ is_undecided (outcome_of (slot_known s.now k)) }
{
    matches!(outcome_at(s, k), Outcome::Wait)
}
