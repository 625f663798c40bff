// The call that reports what the shard found about the inputs of a known transaction at its registration (document 02, 2).
// Nothing is changed.
ghost use Rattle.std.specs.Prelude.{◌≡◌, ◌<◌};
ghost use Rattle.transaction.specs.Lists.{first_of};
ghost use Rattle.model.specs.Findings.{report_form, told, report};
ghost use Rattle.layout.specs.Layout.{known_slots, slot_known};
ghost use Rattle.shard.specs.View.{view, Sound};
ghost use Rattle.shard.specs.View as View;

use layout::Words;
use layout::counts::own_number;
use layout::entries::findings_at;
use model::{Findings, Report};
use registry::counting::inputs_here_at;
use registry::finding::place_of_number;
use transaction::fields::shard_fits;
use transaction::refusal::Refusal;

// 3: another shard, one above 7, or the number 0.
fn report_form(me: u8, shard: u8, number: u32) -> Result<(), Refusal>
    ensures { result ≡ first_of (report_form me shard number) }
{
    if shard != me || !shard_fits(shard) || number == 0 {
        return Err(Refusal::OutOfRange);
    }
    Ok(())
}

// What is told of the known transaction in a slot.
fn told_at(s: &Words, place: usize) -> Findings
    requires { place < known_slots }
    ensures { result ≡ told (View.number s.now) (slot_known s.now place) }
{
    let count = inputs_here_at(s, place, own_number(s));
    let list = findings_at(s, place);
    Findings { count, list }
}

// The findings about the inputs here of the known transaction of that number, in input order; 18 where it is not known.
pub fn findings_of(s: &Words, shard: u8, number: u32) -> Report
    requires { Sound s.now }
    ensures { result ≡ report (View.number s.now) (view s.now) shard number }
{
    report_form(own_number(s), shard, number)?;
    let place = place_of_number(s, number).ok_or(Refusal::NoSuchNumber)?;
    Ok(told_at(s, place))
}
