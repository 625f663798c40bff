// The fields of a record stored at their places, high byte first.
// Stays: one function for each kind of record, as the specification has a table for each; a place beside the bytes, since
// `sets`, of which the contracts speak, has the same two arguments; kinds and verdicts as the bytes that they are.
ghost use Rattle.std.specs.Prelude.{◌≡◌, ℕ, List, refl, ◌++◌, ◌+◌, ◌*◌, ◌≤◌, length, drop};
ghost use Rattle.std.proofs.lemmas.List.Edits.{sets};
ghost use Rattle.writer.specs.Layout.{byte_of, word_of, input_bytes, output_bytes, bytes_of_all, transaction_bytes};
ghost use Rattle.writer.specs.Layout.{register_bytes, vote_bytes, mint_bytes, turn_bytes};
ghost use Rattle.writer.specs.Layout.{length-word, length-input, length-output};

use transaction::{Input, Output, Transaction};

// The kinds of a record.
const REGISTER: u8 = 1;

const VOTE: u8 = 2;

const MINT: u8 = 3;

const TURN: u8 = 4;

// What a record is made of: so many bytes, stored from a place on. No other byte changes.
trait InBytes: Copy {
    ghost SIZE: { ℕ };

    ghost in_bytes: { Self → List ℕ };

    const SIZE: usize;

    fn put(self, out: &mut [u8], at: usize)
        requires { at + SIZE ≤ length out.old }
        ensures { out.new ≡ sets out.old at (in_bytes self) };

    ghost long: { (x : Self) → length (in_bytes x) ≡ SIZE };
}

impl InBytes for u8 {
    ghost SIZE = { 1 };

    ghost in_bytes = { byte_of };

    const SIZE: usize = 1;

    fn put(self, out: &mut [u8], at: usize) {
        out[at] = self;
    }

    ghost long = { λ _. refl };
}

impl InBytes for u32 {
    ghost SIZE = { 4 };

    ghost in_bytes = { word_of };

    const SIZE: usize = 4;

    fn put(self, out: &mut [u8], at: usize) {
        out[at..at + 4].copy_from_slice(&self.to_be_bytes());
    }

    ghost long = { length-word };
}

impl InBytes for Input {
    ghost SIZE = { 14 };

    ghost in_bytes = { input_bytes };

    const SIZE: usize = 14;

    fn put(self, out: &mut [u8], at: usize) {
        let token = self.token;
        token.shard.put(out, at);
        token.creator.put(out, at + 1);
        token.index.put(out, at + 5);
        self.owner.put(out, at + 6);
        self.amount.put(out, at + 10);
    }

    ghost long = { length-input };
}

impl InBytes for Output {
    ghost SIZE = { 9 };

    ghost in_bytes = { output_bytes };

    const SIZE: usize = 9;

    fn put(self, out: &mut [u8], at: usize) {
        self.shard.put(out, at);
        self.owner.put(out, at + 1);
        self.amount.put(out, at + 5);
    }

    ghost long = { length-output };
}

// Four of them, one behind the other.
fn put_four<S: InBytes>(out: &mut [u8], at: usize, slots: [S; 4])
    requires { at + 4 * S.SIZE ≤ length out.old }
    ensures { out.new ≡ sets out.old at (bytes_of_all S.in_bytes slots) }
{
    for (k, x) in slots.iter().enumerate() {
        x.put(out, at + k * S::SIZE);
    }
}

fn put_transaction(out: &mut [u8], at: usize, t: Transaction)
    requires { at + 98 ≤ length out.old }
    ensures { out.new ≡ sets out.old at (transaction_bytes t) }
{
    t.number.put(out, at);
    t.input_count.put(out, at + 4);
    t.output_count.put(out, at + 5);
    put_four(out, at + 6, t.inputs);
    put_four(out, at + 62, t.outputs);
}

// A whole record from the front; what stands behind it stays.
pub(crate) fn put_register(out: &mut [u8], receiver: u8, t: Transaction)
    requires { 100 ≤ length out.old }
    ensures { out.new ≡ register_bytes receiver t ++ drop 100 out.old }
{
    REGISTER.put(out, 0);
    receiver.put(out, 1);
    put_transaction(out, 2, t);
}

pub(crate) fn put_vote(out: &mut [u8], receiver: u8, sender: u8, verdict: u8, t: Transaction)
    requires { 102 ≤ length out.old }
    ensures { out.new ≡ vote_bytes receiver sender verdict t ++ drop 102 out.old }
{
    VOTE.put(out, 0);
    receiver.put(out, 1);
    sender.put(out, 2);
    verdict.put(out, 3);
    put_transaction(out, 4, t);
}

pub(crate) fn put_mint(out: &mut [u8], receiver: u8, index: u8, owner: u32, amount: u32)
    requires { 11 ≤ length out.old }
    ensures { out.new ≡ mint_bytes receiver index owner amount ++ drop 11 out.old }
{
    MINT.put(out, 0);
    receiver.put(out, 1);
    index.put(out, 2);
    owner.put(out, 3);
    amount.put(out, 7);
}

pub(crate) fn put_turn(out: &mut [u8], receiver: u8)
    requires { 2 ≤ length out.old }
    ensures { out.new ≡ turn_bytes receiver ++ drop 2 out.old }
{
    TURN.put(out, 0);
    receiver.put(out, 1);
}
