// The step of a turn (document 02, 4): what is pledged to transactions that the shard has aborted comes free, and the shard is turned.
ghost use Rattle.std.specs.Prelude.{◌≡◌, ◌<◌, ◌≤◌};
ghost use Rattle.model.specs.Steps.{freeing, pledged_to_aborted};
ghost use Rattle.layout.specs.Layout.{known_slots, shard_of, slot_known};
ghost use Rattle.holdings.specs.Held.{Room, Changes};
ghost use Rattle.shard.specs.View.{view};
ghost use Rattle.shard.specs.Parts.{is_bound_to, TurnedOver};

use holdings::freeing::free_pledged_to;
use layout::Words;
use layout::counts::{known_count, set_turned};
use layout::entries::number_at;
use model::Outcome;
use registry::deciding::outcome_at;

// What is pledged to the known transaction in a slot comes free, if that is aborted.
fn free_if_aborted(s: &mut Words, place: usize)
    requires { Room s.old × (place < known_slots) }
    ensures { Changes (freeing (is_bound_to (slot_known s.old place))) s.old s.new }
{
    if matches!(outcome_at(s, place), Outcome::Abort) {
        let number = number_at(s, place);
        free_pledged_to(s, number);
    }
}

// One known transaction after the other.
fn free_aborted(s: &mut Words)
    requires { Room s.old × ((shard_of s.old).known ≤ known_slots) }
    ensures { Changes (freeing (pledged_to_aborted (view s.old).known)) s.old s.new }
{
    for place in 0..known_count(s) {
        free_if_aborted(s, place);
    }
}

pub(crate) fn after_turn(s: &mut Words)
    requires { Room s.old × ((shard_of s.old).known ≤ known_slots) }
    ensures { TurnedOver s.old s.new }
{
    free_aborted(s);
    set_turned(s);
}
