// Outputs here of undecided transactions.
ghost use Rattle.std.specs.Prelude.{◌≡◌, ◌≤◌, ◌<◌, ◌*◌, length};
ghost use Rattle.model.specs.Steps.{outputs_here};
ghost use Rattle.model.specs.Shard.{reserved_by, reserved};
ghost use Rattle.layout.specs.Layout.{known_slots, shard_of, ledger_of, slot_known};

use crate::counting::here_at;
use crate::deciding::is_undecided;
use layout::Words;
use layout::counts::known_count;
use transaction::{Output, Transaction};

// How many outputs of the transaction are here.
pub fn count_here(me: u8, t: Transaction) -> usize
    ensures { (result ≡ length (outputs_here me t)) × (result ≤ 4) }
{
    t.used_outputs().iter().filter(|y| y.shard == me).count()
}

// Outputs here, while it is undecided: those that have none here are not decided anew.
fn reserved_at(s: &Words, k: usize, me: u8) -> usize
    requires { k < known_slots }
    ensures { (result ≡ reserved_by me (slot_known s.now k)) × (result ≤ 4) }
{
    let n = usize::from(here_at::<Output>(s, k, me));
    if n == 0 {
        return 0;
    }
    if is_undecided(s, k) { n } else { 0 }
}

// Of all undecided transactions.
pub fn reserved_here(s: &Words, me: u8) -> usize
    requires { (shard_of s.now).known ≤ known_slots }
    ensures { (result ≡ reserved me (ledger_of s.now).known) × (result ≤ 4 * (shard_of s.now).known) }
{
    let mut sum: usize = 0;
    for i in 0..known_count(s) {
        sum += reserved_at(s, i, me);
    }
    sum
}
