// What a transaction has four slots of, inputs and outputs alike: what is asked of one slot, and of all four.
ghost use Rattle.std.specs.Prelude.{◌≡◌, ℕ, Bool, cond};
ghost use Rattle.transaction.specs.Lists.{slots_fit, total};
ghost use Rattle.transaction.specs.Tokens.{same_input, same_output, zero_input, zero_output};
ghost use Rattle.transaction.specs.Checks.{input_fits, output_fits, input_amount, output_amount};

use crate::equality::{same_input, same_output};
use crate::fields::{index_fits, shard_fits, value_fits};
use crate::{Input, Output, TokenId};

// What stands in a slot. Used, it is in range; unused, all of it is zero.
pub trait Part: Copy {
    ghost fits: { ℕ → Self → Bool };

    ghost is_zero: { Self → Bool };

    ghost amount: { Self → ℕ };

    // In range, where a shard has so many genesis indices.
    fn fits(self, genesis: u8) -> bool
        ensures { result ≡ fits genesis self };

    fn is_zero(self) -> bool
        ensures { result ≡ is_zero self };

    fn amount(self) -> u32
        ensures { result ≡ amount self };
}

impl Part for Input {
    ghost fits = { input_fits };

    ghost is_zero = { same_input zero_input };

    ghost amount = { input_amount };

    fn fits(self, genesis: u8) -> bool {
        let t = self.token;
        shard_fits(t.shard)
            & index_fits(genesis, t.creator, t.index)
            & value_fits(self.owner, self.amount)
    }

    fn is_zero(self) -> bool {
        same_input(Input::ZERO, self)
    }

    fn amount(self) -> u32 {
        self.amount
    }
}

impl Part for Output {
    ghost fits = { λ _ y. output_fits y };

    ghost is_zero = { same_output zero_output };

    ghost amount = { output_amount };

    fn fits(self, _genesis: u8) -> bool {
        shard_fits(self.shard) & value_fits(self.owner, self.amount)
    }

    fn is_zero(self) -> bool {
        same_output(Output::ZERO, self)
    }

    fn amount(self) -> u32 {
        self.amount
    }
}

impl Input {
    pub(crate) const ZERO: Input = Input {
        token: TokenId {
            shard: 0,
            creator: 0,
            index: 0,
        },
        owner: 0,
        amount: 0,
    };
}

impl Output {
    pub(crate) const ZERO: Output = Output {
        shard: 0,
        owner: 0,
        amount: 0,
    };
}

// One slot: in range where it is used, all zero where it is not.
// Stays: whether it is used is data of the slot, as `slots_fit` has it: both tests read the same slot.
pub fn slot_fits<S: Part>(genesis: u8, used: bool, x: S) -> bool
    ensures { result ≡ cond used (S.fits genesis x) (S.is_zero x) }
{
    if used { x.fits(genesis) } else { x.is_zero() }
}

// All four, of which the first are used, as many as the count says. As `fields_fit`, it is part of `cause`.
#[inline(always)]
pub fn slots_fit<S: Part>(genesis: u8, count: u8, slots: [S; 4]) -> bool
    ensures { result ≡ slots_fit (S.fits genesis) S.is_zero count slots }
{
    for (k, x) in slots.iter().enumerate() {
        if !slot_fits(genesis, k < usize::from(count), *x) {
            return false;
        }
    }
    true
}

// The sum over all four.
pub fn total<S: Part>(slots: [S; 4]) -> u64
    ensures { result ≡ total S.amount slots }
{
    let mut sum = 0;
    for x in slots {
        sum += u64::from(x.amount());
    }
    sum
}
