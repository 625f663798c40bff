// What can be asked of a shard: each answer is read off its words, and nothing is changed.
ghost use Rattle.std.specs.Prelude.{◌≡◌, false, ◌≤◌, get_or, length};
ghost use Rattle.shard.specs.View.{view, Sound};
ghost use Rattle.model.specs.Totals.{total_amount};
ghost use Rattle.shard.specs.Queries.{token_at, token_of_id, get_known, blank_known, known_at, outcome_at, outcome_of_number};

use holdings::finding::{nothing_found, place_of_token};
use layout::{Words, counts, entries, tokens};
use model::{Known, Outcome, Token};
use registry::deciding;
use registry::finding::place_of_number;

// How many tokens are held.
pub fn held_count(s: &Words) -> usize
    requires { Sound s.now }
    ensures { result ≡ length (view s.now).tokens }
{
    counts::held(s)
}

// How many transactions are known.
pub fn known_count(s: &Words) -> usize
    requires { Sound s.now }
    ensures { result ≡ length (view s.now).known }
{
    counts::known_count(s)
}

// The token at a place of those held; none behind the last.
// Stays: an `if`, here and twice below. `(place < held).then(..)` was tried: it needs answers of its own, as this has, and says no more.
pub fn token_at(s: &Words, place: usize) -> Option<Token>
    requires { Sound s.now }
    ensures { result ≡ token_at (view s.now).tokens place }
{
    if place < counts::held(s) {
        return Some(tokens::token_at(s, place));
    }
    None
}

// The held token of that id.
pub fn find_token(s: &Words, creator: u32, index: u8) -> Option<Token>
    requires { Sound s.now }
    ensures { result ≡ token_of_id (view s.now).tokens creator index }
{
    let place = place_of_token(s, creator, index)?;
    Some(tokens::token_at(s, place))
}

// The known transaction at a place; none behind the last.
pub fn get_known(s: &Words, place: usize) -> Option<Known>
    requires { Sound s.now }
    ensures { result ≡ get_known (view s.now).known place }
{
    if place < counts::known_count(s) {
        return Some(entries::known_at(s, place));
    }
    None
}

// No known transaction: what stands behind the last one.
// Stays: zeros where nothing is, here and in `known_at`, which could not fail and still cannot. `get_known`, beside it, has None.
pub fn blank_known() -> Known
    ensures { result ≡ blank_known }
{
    Known {
        transaction: transaction::parts::blank(),
        heard: [None; 8],
        findings: nothing_found(),
    }
}

// The known transaction at a place; a blank one behind the last.
pub fn known_at(s: &Words, place: usize) -> Known
    requires { Sound s.now }
    ensures { result ≡ known_at (view s.now).known place }
{
    get_known(s, place).unwrap_or(blank_known())
}

// The outcome of the known transaction at a place.
pub fn outcome_at(s: &Words, place: usize) -> Option<Outcome>
    requires { Sound s.now }
    ensures { result ≡ outcome_at (view s.now).known place }
{
    if place < counts::known_count(s) {
        return Some(deciding::outcome_at(s, place));
    }
    None
}

// The outcome of the known transaction of that number.
pub fn outcome_of(s: &Words, number: u32) -> Option<Outcome>
    requires { Sound s.now }
    ensures { result ≡ outcome_of_number (view s.now).known number }
{
    let place = place_of_number(s, number)?;
    Some(deciding::outcome_at(s, place))
}

// The genesis index was given.
pub fn is_given(s: &Words, index: u8) -> bool
    requires { Sound s.now }
    ensures { result ≡ get_or (view s.now).given index false }
{
    crate::rows::was_given(s, index)
}

// The shard has turned (document 02, 4).
pub fn is_turned(s: &Words) -> bool
    requires { Sound s.now }
    ensures { result ≡ (view s.now).turned }
{
    crate::rows::has_turned(s)
}

// The sum of the held amounts, of 128 tokens at most.
pub fn total_amount(s: &Words) -> u64
    requires { Sound s.now }
    ensures { (result ≡ total_amount (view s.now).tokens) × (result ≤ 549755813888) }
{
    let mut sum = 0;
    for place in 0..counts::held(s) {
        sum += u64::from(tokens::amount_at(s, place));
    }
    sum
}
