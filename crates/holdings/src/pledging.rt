// The third part of the local step (document 000, section 4): the pledges.
ghost use Rattle.std.specs.Prelude.{[], ◌∷◌, Bool, map};
ghost use Rattle.model.specs.declared.Token.{Token};
ghost use Rattle.model.specs.Steps.{pledge_when, pledges};
ghost use Rattle.holdings.specs.Held.{Room, Changes, Tells};

use crate::Inputs;
use crate::availability::names_token;
use layout::Words;
use layout::counts::held;
use layout::tokens::{put_pledge, token_at};
use model::Token;
use transaction::Input;

// The tokens that a test picks are pledged to the transaction of that number, or to none where it is 0.
pub(crate) fn pledge_where<F: Fn(Token) -> bool>(s: &mut Words, number: u32, picks: F)
    requires room { Room s.old }
    requires callable { F.IsAlwaysCallable picks }
    ensures { (test : Token → Bool) → Tells (F.post picks) test
        → Changes (map (pledge_when number test)) s.old s.new }
{
    for k in 0..held(s) {
        if picks(token_at(s, k)) {
            put_pledge(s, k, number);
        }
    }
}

// What one input names is pledged.
fn pledge_named(s: &mut Words, number: u32, x: Input)
    requires { Room s.old }
    ensures { Changes (pledges number (x ∷ [])) s.old s.new }
{
    pledge_where(s, number, |token| names_token(x, token));
}

// Third, S pledges D(S, τ) to τ: the tokens of these inputs are pledged to the transaction of that number. Where D(S, τ) is
// not all of I(S, τ), document 000 pledges nothing; document 01 pledges what is available, and decides. Input after input:
// a loop over the tokens has one name to compare.
pub fn pledge_all(s: &mut Words, number: u32, inputs: &Inputs)
    requires { Room s.old }
    ensures { Changes (pledges number inputs.now) s.old s.new }
{
    for x in inputs.as_slice() {
        pledge_named(s, number, *x);
    }
}
