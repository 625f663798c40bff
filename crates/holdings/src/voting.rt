// The fourth part of the local step (document 000, section 4): the message.
ghost use Rattle.std.specs.Prelude.{◌≡◌, List, ℕ};
ghost use Rattle.transaction.specs.declared.Transaction.{Transaction};
ghost use Rattle.model.specs.declared.Token.{Token};
ghost use Rattle.model.specs.Steps.{inputs_here, available_here, vote};

use crate::Inputs;

// Fourth, m(S, τ): the vote on whichever transaction I(S, τ) and D(S, τ) are handed in of. It is yes if I(S, τ) = D(S, τ);
// D(S, τ) is a part of I(S, τ), so that the counts tell.
pub fn own_vote(here: &Inputs, found: &Inputs) -> bool
    ensures { (me : ℕ) (tokens : List Token) (t : Transaction) → here.now ≡ inputs_here me t
        → found.now ≡ available_here me tokens t → result ≡ vote me tokens t }
{
    found.len() == here.len()
}
