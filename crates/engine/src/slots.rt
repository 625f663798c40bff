// The slots of a transaction, put straight from a record's bytes into the lent words and checked on the way: a field is loaded once, stored
// and tested while it is in a register, and no slot waits for another.
// Of the 42 words seven stand in front of the transaction, then its number and its counts; from 10 on the inputs, five words each, from 30 on
// the outputs, three each. In the bytes an input has 14, an output 9.
// Stays: bytes with a place, and words with a place. Parts cut out of them are no plainer: the cut would stand at each call, and the part's
// length in each contract.
ghost use Rattle.std.specs.Prelude.{◌≡◌, ℕ, Bool, cond, ◌+◌, ◌*◌, ◌≤◌, List, [], ◌∷◌, ◌++◌, length};
ghost use Rattle.std.proofs.lemmas.List.Edits.{sets};
ghost use Rattle.transaction.specs.Lists.{slots_fit};
ghost use Rattle.transaction.specs.Tokens.{same_input, same_output, zero_input, zero_output};
ghost use Rattle.transaction.specs.Checks.{house_genesis, input_fits, output_fits};
ghost use Rattle.reader.specs.Layout.{input_at, output_at};
ghost use Rattle.engine.specs.Taking.{TakesSlots, four_slots, four_words};

use reader::layout::InBytes;
use transaction::slot::slot_fits;
use transaction::{Input, Output};
use words::Slot;

pub(crate) const INPUT_BYTES: usize = 14; // the bytes of an input

pub(crate) const OUTPUT_BYTES: usize = 9; // the bytes of an output

// A slot that a record has: so many bytes, which are N words.
pub(crate) trait Taken<const N: usize>: Slot<N> {
    ghost SIZE: { ℕ };

    const SIZE: usize; // its bytes

    // The slot at a place of the bytes.
    ghost read_at: { List ℕ → ℕ → Self };

    // What it has to pass where it is used, and where it is not.
    ghost used_fits: { Self → Bool };

    ghost unused_fits: { Self → Bool };

    fn at(bytes: &[u8], place: usize) -> Self
        requires { place + SIZE ≤ length bytes.now }
        ensures { result ≡ read_at bytes.now place };

    // In range where it is used, all zero where it is not.
    // Stays: `used` tells of one slot of the four; two functions for it would need the same `if` in each turn of the loop.
    fn fits(self, used: bool) -> bool
        ensures { result ≡ cond used (used_fits self) (unused_fits self) };
}

impl Taken<5> for Input {
    ghost SIZE = { 14 };

    const SIZE: usize = INPUT_BYTES;

    ghost read_at = { input_at };

    ghost used_fits = { input_fits house_genesis };

    ghost unused_fits = { same_input zero_input };

    fn at(bytes: &[u8], place: usize) -> Input {
        Input::from_bytes(bytes, place)
    }

    fn fits(self, used: bool) -> bool {
        slot_fits(128, used, self)
    }
}

impl Taken<3> for Output {
    ghost SIZE = { 9 };

    const SIZE: usize = OUTPUT_BYTES;

    ghost read_at = { output_at };

    ghost used_fits = { output_fits };

    ghost unused_fits = { same_output zero_output };

    fn at(bytes: &[u8], place: usize) -> Output {
        Output::from_bytes(bytes, place)
    }

    fn fits(self, used: bool) -> bool {
        slot_fits(128, used, self)
    }
}

// The slot at a place of the bytes: its words, and whether it fits.
fn take_slot<S: Taken<N>, const N: usize>(
    bytes: &[u8],
    at: usize,
    used: bool,
    fields: &mut [u32; 42],
    to: usize,
) -> bool
    requires place { at + S.SIZE ≤ length bytes.now }
    requires room { to + N ≤ 42 }
    ensures answered { result ≡ cond used (S.used_fits (S.read_at bytes.now at)) (S.unused_fits (S.read_at bytes.now at)) }
    ensures stored { fields.new ≡ sets fields.old to (S.in_words (S.read_at bytes.now at)) }
{
    let slot = S::at(bytes, at);
    fields[to..to + N].copy_from_slice(&slot.to_words());
    slot.fits(used)
}

// All four, up to the first that does not fit.
pub(crate) fn take_slots<S: Taken<N>, const N: usize>(
    bytes: &[u8],
    at: usize,
    count: u8,
    fields: &mut [u32; 42],
    to: usize,
) -> bool
    requires place { at + 4 * S.SIZE ≤ length bytes.now }
    requires room { to + 4 * N ≤ 42 }
    ensures { TakesSlots
        (slots_fit S.used_fits S.unused_fits count (four_slots S.SIZE (S.read_at bytes.now) at))
        (four_words S.in_words S.SIZE (S.read_at bytes.now) at) fields.old to result fields.new }
{
    for k in 0..4 {
        let used = k < usize::from(count);
        if !take_slot::<S, N>(bytes, at + k * S::SIZE, used, fields, to + k * N) {
            return false;
        }
    }
    true
}
