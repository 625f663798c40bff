// How many inputs or outputs of a known transaction are at this shard.
ghost use Rattle.std.specs.Prelude.{◌≡◌, ◌≤◌, ◌<◌, length, take, eqb};
ghost use Rattle.model.specs.Lists.{keep};
ghost use Rattle.model.specs.Steps.{inputs_here};
ghost use Rattle.layout.specs.Layout.{known_slots, slot_known};

use layout::Words;
use layout::entries::Side;
use transaction::Input;

// Of the known transaction in a slot, without reading it as a whole.
// Stays: beside `count_here`, which has the transaction and not its words.
pub(crate) fn here_at<P: Side>(s: &Words, k: usize, me: u8) -> u8
    requires { k < known_slots }
    ensures are { result ≡ length (keep (λ x. eqb (P.shard x) me)
        (take (P.count (slot_known s.now k).transaction) (P.slots (slot_known s.now k).transaction))) }
    ensures few { result ≤ 4 }
{
    let mut here: u8 = 0;
    let n = P::count_at(s, k).min(4);
    for i in 0..n {
        if P::shard_at(s, k, usize::from(i)) == me {
            here += 1;
        }
    }
    here
}

// How many inputs of the known transaction in a slot are here.
pub fn inputs_here_at(s: &Words, k: usize, me: u8) -> u8
    requires { k < known_slots }
    ensures { result ≡ length (inputs_here me (slot_known s.now k).transaction) }
{
    here_at::<Input>(s, k, me)
}
