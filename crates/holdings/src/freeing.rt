// Tokens that come free (document 02, 4): at a shard that has turned, those pledged to a transaction that it aborts.
ghost use Rattle.std.specs.Prelude.{◌≡◌};
ghost use Rattle.model.specs.Steps.{is_pledged_to, freeing};
ghost use Rattle.holdings.specs.Held.{Room, Changes, Settling, Settles};

use crate::pledging::pledge_where;
use layout::Words;
use layout::counts::is_turned;
use layout::entries::number_at;
use model::Outcome;

// The tokens pledged to the transaction of that number come free.
pub fn free_pledged_to(s: &mut Words, number: u32)
    requires { Room s.old }
    ensures { Changes (freeing (is_pledged_to number)) s.old s.new }
{
    pledge_where(s, 0, |token| token.pledge == number);
}

// The known transaction in a slot is aborted: no token changes, but where the shard has turned its tokens come free.
pub(crate) fn abort_at(s: &mut Words, place: usize)
    requires { Settling Outcome.Abort place s.old }
    ensures { Settles Outcome.Abort place s.old s.new }
{
    if is_turned(s) {
        let number = number_at(s, place);
        free_pledged_to(s, number);
    }
}
