// What is told of a shard's ledger, as words: a held token's five, a known transaction's 43.
// Stays: a number for an answer, and zeros for none. C has no Option: include/plankeeper.h tells both.
ghost use Rattle.std.specs.Prelude.{◌≡◌, ◌++◌};
ghost use Rattle.engine.specs.Queries.{held_code, token_words, known_code, known_words};

use crate::codes::outcome_code;
use crate::fields::joined;
use layout::verdicts::said_number;
use model::{Known, Outcome, Token};
use words::words_of;

// 1 for a token that is held, 0 for none.
#[tactic(auto, unfolding(crate::specs::Queries::held_code))]
fn held_code(token: Option<Token>) -> u32
    ensures { result ≡ held_code token }
{
    u32::from(token.is_some())
}

// Creator, index, owner, amount and pledge; zeros for none.
#[tactic(auto, unfolding(crate::specs::Queries::token_words))]
fn token_words(token: Option<Token>) -> [u32; 5]
    ensures { result ≡ token_words token }
{
    match token {
        Some(t) => [t.creator, u32::from(t.index), t.owner, t.amount, t.pledge],
        None => [0; 5],
    }
}

// The outcome's number, 3 where the transaction is not known.
#[tactic(auto, unfolding(crate::specs::Queries::known_code))]
pub(crate) fn known_code(outcome: Option<Outcome>) -> u32
    ensures { result ≡ known_code outcome }
{
    outcome.map_or(3, outcome_code)
}

// The transaction's words with the verdicts heard behind them; zeros for none.
#[tactic(auto, unfolding(crate::specs::Queries::known_words))]
fn known_words(known: Option<Known>) -> [u32; 43]
    ensures { result ≡ known_words known }
{
    match known {
        Some(k) => joined(words_of(k.transaction), k.heard.map(said_number)),
        None => [0; 43],
    }
}

// What a query for the token at a place answers: the number, and the words into the lent ones.
pub(crate) fn tell_token(held: Option<Token>, words: &mut [u32; 5]) -> u32
    ensures { (result ≡ held_code held) × (words.new ≡ token_words held) }
{
    *words = token_words(held);
    held_code(held)
}

// And what one for the known transaction at a place answers.
pub(crate) fn tell_known(
    known: Option<Known>,
    outcome: Option<Outcome>,
    words: &mut [u32; 43],
) -> u32
    ensures { (result ≡ known_code outcome) × (words.new ≡ known_words known) }
{
    *words = known_words(known);
    known_code(outcome)
}
