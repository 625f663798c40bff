// The tokens that a shard holds, and what a registration and a decision do to them, in place: document 01, 'The steps'.
// Internal: the crate `shard` calls it.
// Stays: `Room` and `held ≤ token_slots` are asked for in contracts, since C lends a shard as an array of words: a struct around the
// loan was tried in the crate `shard` (there it says what came of it).
#![tactic(auto)]

ghost use Rattle.std.specs.Prelude.{◌≡◌, List, [], ◌∷◌, ◌++◌, ◌<◌, ◌≤◌, length, take};
ghost use Rattle.transaction.specs.declared.Input.{Input};

use std::marker::Model;
use transaction::{Input, TokenId};

pub mod availability; // the inputs at a shard, and the available ones among them
pub mod finding; // what is found about each input here
pub mod pledging; // the pledges
pub mod voting; // the message
pub mod committing; // tokens destroyed and made
pub mod freeing; // tokens that come free

// Up to four inputs, in order: a transaction has no more. In contracts it is their list.
// Stays: an array with a count, and no Vec, since nothing is allocated (no heap).
#[derive(Clone, Copy)]
pub struct Inputs {
    count: usize,
    list: [Input; 4],
}

impl Model for Inputs {
    ghost use Rattle.std.specs.Prelude.{◌≡◌, ◌≤◌, ◌++◌, List, length, take, drop};
    ghost use Rattle.std.proofs.Common.{arith, length-take-le};
    ghost use Rattle.transaction.specs.declared.Input.{Input};
    ghost use Rattle.holdings.specs.Inputs.{unused, given_back};

    ghost Value = { List Input };

    ghost view = { λ x. take x.count x.list };

    // The slots behind the last are zero: so the list gives the fields back, which `Copy` asks for.
    ghost invariant = { λ x. (x.count ≤ 4) × (length x.list ≡ 4) × (drop x.count x.list ≡ unused x.count) };

    ghost inverse = { λ l. record { count = length l; list = l ++ unused (length l) } };

    ghost inverse_ok = { λ x h i. record {
      count = length-take-le x.count x.list (omega (arith, h.0, h.1)) i;
      list = given_back x.count x.list h i;
    } };
}

impl Inputs {
    // None.
    // Stays: zeros in the slots that are not used, since nothing is allocated here.
    pub fn new() -> Self
        ensures { result ≡ [] }
    {
        let nothing = Input {
            token: TokenId {
                shard: 0,
                creator: 0,
                index: 0,
            },
            owner: 0,
            amount: 0,
        };
        Inputs {
            count: 0,
            list: [nothing; 4],
        }
    }

    // One more behind them.
    pub fn push(&mut self, x: Input)
        requires { length self.old < 4 }
        ensures { self.new ≡ self.old ++ x ∷ [] }
    {
        self.list[self.count] = x;
        self.count += 1;
    }

    // How many there are.
    pub fn len(&self) -> usize
        ensures { result ≡ length self.now }
    {
        self.as_slice().len()
    }

    // They, in order.
    pub fn as_slice(&self) -> &[Input]
        ensures are { result.now ≡ self.now }
        ensures few { length self.now ≤ 4 }
    {
        &self.list[..self.count]
    }
}
