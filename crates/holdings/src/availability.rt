// The first two parts of the local step (document 000, section 4): the inputs at this shard, I(S, τ), then the available
// ones among them, D(S, τ), by what was found about each of them.
ghost use Rattle.std.specs.Prelude.{◌≡◌, List, ℕ, ◌≤◌};
ghost use Rattle.transaction.specs.declared.Transaction.{Transaction};
ghost use Rattle.model.specs.declared.Token.{Token};
ghost use Rattle.model.specs.Steps.{names, free_for, available, inputs_here, available_here, findings, keeping};
ghost use Rattle.layout.specs.Layout.{token_slots, shard_of, ledger_of};

use crate::Inputs;
use crate::finding::was_available;
use layout::Words;
use layout::counts::held;
use layout::tokens::token_at;
use model::{Finding, Token};
use transaction::{Input, Transaction};

// The input names this token of its shard.
// Stays: field by field, here and below. An input and a held token are two types, and neither has all that the other has.
pub(crate) fn names_token(x: Input, token: Token) -> bool
    ensures { result ≡ names x token }
{
    (token.creator == x.token.creator) & (token.index == x.token.index)
}

// It is that token with that owner and that amount, and it is pledged to no transaction. The name first: most tokens
// have another.
fn is_free_for(x: Input, token: Token) -> bool
    ensures { result ≡ free_for x token }
{
    names_token(x, token)
        && (token.owner == x.owner) & (token.amount == x.amount) & (token.pledge == 0)
}

// The shard holds such a token.
pub(crate) fn is_available(s: &Words, x: Input) -> bool
    requires { (shard_of s.now).held ≤ token_slots }
    ensures { result ≡ available (ledger_of s.now).tokens x }
{
    for k in 0..held(s) {
        if is_free_for(x, token_at(s, k)) {
            return true;
        }
    }
    false
}

// First, I(S, τ) = {o ∈ Inputs(τ) | S = shard(o)}: the inputs at this shard.
pub fn inputs_here(me: u8, t: Transaction) -> Inputs
    ensures { result ≡ inputs_here me t }
{
    let mut here = Inputs::new();
    for x in t.used_inputs() {
        if x.token.shard == me {
            here.push(*x);
        }
    }
    here
}

// Second, D(S, τ) ⊆ I(S, τ): those of the inputs here that were found available, of whichever shard, tokens and transaction.
pub fn available_here(here: &Inputs, found: [Finding; 4]) -> Inputs
    ensures { (me : ℕ) (tokens : List Token) (t : Transaction) → here.now ≡ inputs_here me t
        → found ≡ keeping (findings me tokens t) → result ≡ available_here me tokens t }
{
    let mut available = Inputs::new();
    for (i, x) in here.as_slice().iter().enumerate() {
        if was_available(found[i]) {
            available.push(*x);
        }
    }
    available
}
