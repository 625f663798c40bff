// What is found about an input (document 02, 2), as two numbers: its own, and that of the pledging transaction.
// Stays: functions are plainer here than From: an impl for `Finding` would stand in the crate `model`, which knows no words,
// and the second number goes with the first.
ghost use Rattle.std.specs.Prelude.{◌≡◌};
ghost use Rattle.model.specs.Answers.{finding_number, pledging_number};
ghost use Rattle.layout.specs.Layout.{finding_from};

use model::Finding;

pub fn finding_number(found: Finding) -> u32
    ensures { result ≡ finding_number found }
{
    match found {
        Finding::Available => 1,
        Finding::NotHeld => 2,
        Finding::OtherOwner => 3,
        Finding::OtherAmount => 4,
        Finding::Pledged(_) => 5,
    }
}

// 0 where the finding is no pledge.
pub fn pledging_number(found: Finding) -> u32
    ensures { result ≡ pledging_number found }
{
    match found {
        Finding::Pledged(number) => number,
        _ => 0,
    }
}

pub(crate) fn finding_from(number: u32, pledging: u32) -> Finding
    ensures { result ≡ finding_from number pledging }
{
    match number {
        2 => Finding::NotHeld,
        3 => Finding::OtherOwner,
        4 => Finding::OtherAmount,
        5 => Finding::Pledged(pledging),
        _ => Finding::Available,
    }
}
