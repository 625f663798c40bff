// What is found about each input here (document 02, 2), before anything is pledged: it belongs to the second part of the
// local step.
ghost use Rattle.std.specs.Prelude.{◌≡◌, [], ℕ, ◌≤◌, ◌<◌, position, IfSome};
ghost use Rattle.std.proofs.Math.Option.{some};
ghost use Rattle.transaction.specs.declared.Transaction.{Transaction};
ghost use Rattle.model.specs.Answers.{is_available};
ghost use Rattle.model.specs.Steps.{inputs_here, obstacle, finding, findings, keeping};
ghost use Rattle.model.specs.Demand.{has_spot};
ghost use Rattle.layout.specs.Layout.{token_slots, shard_of, ledger_of};

use crate::Inputs;
use crate::availability::is_available;
use layout::Words;
use layout::counts::held;
use layout::tokens::{is_token, token_at};
use model::{Finding, Token};
use transaction::Input;

// The place of the token of that creator and index, where it is held.
// Stays: the two without a `TokenId`, which has a shard too: a shard holds its own tokens alone, and nothing would look at that.
pub fn place_of_token(s: &Words, creator: u32, index: u8) -> Option<usize>
    requires { (shard_of s.now).held ≤ token_slots }
    ensures found { result ≡ position (has_spot creator index) (ledger_of s.now).tokens }
    ensures within { IfSome result (λ place. place < (shard_of s.now).held) }
{
    for i in 0..held(s) {
        if is_token(s, i, creator, index) {
            return Some(i);
        }
    }
    None
}

// What stands in the way, by the token of its name.
fn obstacle_of(x: Input, token: Token) -> Finding
    ensures { result ≡ obstacle x (some token) }
{
    if token.owner != x.owner {
        return Finding::OtherOwner;
    }
    if token.amount != x.amount {
        return Finding::OtherAmount;
    }
    Finding::Pledged(token.pledge)
}

fn finding_of(s: &Words, x: Input) -> Finding
    requires { (shard_of s.now).held ≤ token_slots }
    ensures { result ≡ finding (ledger_of s.now).tokens x }
{
    if is_available(s, x) {
        return Finding::Available;
    }
    match place_of_token(s, x.token.creator, x.token.index) {
        Some(place) => obstacle_of(x, token_at(s, place)),
        None => Finding::NotHeld,
    }
}

// None, in four places.
// Stays: `Available` where no input is, since `keeping` of the specification and the words for C have four findings.
pub fn nothing_found() -> [Finding; 4]
    ensures { result ≡ keeping [] }
{
    [Finding::Available; 4]
}

// The findings about the inputs here, of whichever shard and transaction those are.
pub fn findings_here(s: &Words, here: &Inputs) -> [Finding; 4]
    requires { (shard_of s.now).held ≤ token_slots }
    ensures { (me : ℕ) (t : Transaction) → here.now ≡ inputs_here me t
        → result ≡ keeping (findings me (ledger_of s.now).tokens t) }
{
    let mut found = nothing_found();
    for (i, x) in here.as_slice().iter().enumerate() {
        found[i] = finding_of(s, *x);
    }
    found
}

// The input was available.
pub(crate) fn was_available(found: Finding) -> bool
    ensures { result ≡ is_available found }
{
    matches!(found, Finding::Available)
}
