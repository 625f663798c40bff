// An answer as one number.
// Stays: numbers for answers, outcomes and refusals. They are the C interface's (include/plankeeper.h), and 100 + .. to 600 + .. fit no enum's discriminants.
ghost use Rattle.std.specs.Prelude.{◌≡◌, ◌≤◌};
ghost use Rattle.transaction.specs.Refusals.{refusal_number};
ghost use Rattle.engine.specs.Codes.{outcome_code, voted_code, answer_code};

use model::{Answer, Done, Outcome};
use transaction::refusal::Refusal;

// A refusal's number, as a word.
pub(crate) fn refusal_number(refusal: Refusal) -> u32
    ensures { result ≡ refusal_number refusal }
{
    u32::from(u8::from(refusal))
}

#[tactic(auto, unfolding(crate::specs::Codes::outcome_code))]
pub(crate) fn outcome_code(o: Outcome) -> u32
    ensures { (result ≡ outcome_code o) × (result ≤ 2) }
{
    match o {
        Outcome::Wait => 0,
        Outcome::Commit => 1,
        Outcome::Abort => 2,
    }
}

fn voted_code(verdict: bool, o: Outcome) -> u32
    ensures { (result ≡ voted_code verdict o) × (result ≤ 12) }
{
    10 * u32::from(verdict) + outcome_code(o)
}

#[tactic(auto, unfolding(crate::specs::Codes::answer_code))]
pub(crate) fn answer_code(answer: Answer) -> u32
    ensures { result ≡ answer_code answer }
{
    match answer {
        Err(refusal) => refusal_number(refusal),
        Ok(Done::Minted) => 100,
        Ok(Done::Registered(verdict, o)) => 200 + voted_code(verdict, o),
        Ok(Done::Heard(o)) => 300 + outcome_code(o),
        Ok(Done::Again(o)) => 400 + outcome_code(o),
        Ok(Done::Turned) => 500,
        Ok(Done::Brought(verdict, o)) => 600 + voted_code(verdict, o),
    }
}
