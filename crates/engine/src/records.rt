// Records read and written, in document 01's bytes: exported functions. Any bytes and any words get an answer.
// Stays: the C interface. C has one function for each kind of record, with that kind's fields as its arguments.
// Stays: answers are numbers, and a refused record's words are zeros: include/plankeeper.h promises both to a program in C.
ghost use Rattle.std.specs.Prelude.{◌≡◌, length};
ghost use Rattle.reader.specs.Reading.{taken_of};
ghost use Rattle.writer.specs.Layout.{register_bytes, vote_bytes, mint_bytes, turn_bytes};
ghost use Rattle.writer.specs.Writing.{register_cause, vote_cause, mint_cause, turn_cause};
ghost use Rattle.words.specs.Words.{byte_of, transaction_from};
ghost use Rattle.engine.specs.Fields.{Fills};
ghost use Rattle.engine.specs.Writing.{code_of, Encodes};

use crate::codes::refusal_number;
use crate::fields::fields_of;
use crate::taking::{VOTE, take_record};
use transaction::refusal::Refusal;
use words::{narrow, number_of, transaction_from};

// The record at the front of the bytes, of any kind, by way of what the reader hands back. It is kept out of
// `plankeeper_read`, whose short way needs no room for a reading.
#[inline(never)]
fn read_any(bytes: &[u8], fields: &mut [u32; 42]) -> u32
    ensures { Fills bytes.now result fields.new }
{
    let reading = reader::read(bytes);
    *fields = fields_of(reading);
    number_of(reading.answer)
}

// The record at the front of the bytes: 0 and its fields, or the refusal's number and zeros. Registrations and votes go
// straight into the words.
#[unsafe(no_mangle)]
pub extern "C" fn plankeeper_read(bytes: &[u8], fields: &mut [u32; 42]) -> u32
    ensures { Fills bytes.now result fields.new }
{
    if reader::head_cause(bytes).is_err() || VOTE < bytes[0] {
        return read_any(bytes, fields);
    }
    let answer = take_record(bytes, fields);
    if answer.is_err() {
        *fields = [0; 42];
    }
    number_of(answer)
}

// How many bytes the record at the front takes, refused or not; all of them where no whole record stands there.
#[unsafe(no_mangle)]
pub extern "C" fn plankeeper_taken(bytes: &[u8]) -> usize
    ensures { result ≡ taken_of bytes.now }
{
    let rest = reader::rest(bytes);
    bytes.len() - rest.len()
}

// A writer's answer as one number: the bytes written, or 1000 times the refusal's number. No record is that long.
#[tactic(auto, unfolding(crate::specs::Writing::code_of))]
fn code(answer: Result<usize, Refusal>) -> u64
    ensures { result ≡ code_of answer }
{
    match answer {
        // Stays: `as`, since usize has no From into u64.
        Ok(size) => size as u64,
        Err(refusal) => 1000 * u64::from(refusal_number(refusal)),
    }
}

// A record of kind 1: the receiving shard (pantry) is asked to register the transaction (swap).
#[unsafe(no_mangle)]
pub extern "C" fn plankeeper_write_register(
    receiver: u32,
    transaction: &[u32; 35],
    out: &mut [u8],
) -> u64
    ensures { Encodes
        (register_cause (byte_of receiver) (transaction_from transaction.now) (length out.old))
        (register_bytes (byte_of receiver) (transaction_from transaction.now))
        out.old result out.new }
{
    let to = narrow(receiver);
    let t = transaction_from(transaction);
    code(writer::write_register(to, t, out))
}

// A record of kind 2: the sending shard tells the receiving one its verdict on the transaction, 1 yes or 0 no.
#[unsafe(no_mangle)]
pub extern "C" fn plankeeper_write_vote(
    receiver: u32,
    sender: u32,
    verdict: u32,
    transaction: &[u32; 35],
    out: &mut [u8],
) -> u64
    ensures { Encodes
        (vote_cause (byte_of receiver) (byte_of sender) (byte_of verdict) (transaction_from transaction.now) (length out.old))
        (vote_bytes (byte_of receiver) (byte_of sender) (byte_of verdict) (transaction_from transaction.now))
        out.old result out.new }
{
    let to = narrow(receiver);
    let from = narrow(sender);
    let said = narrow(verdict);
    let t = transaction_from(transaction);
    code(writer::write_vote(to, from, said, t, out))
}

// A record of kind 3 (an opening): the receiving shard is given a genesis token.
#[unsafe(no_mangle)]
pub extern "C" fn plankeeper_write_mint(
    receiver: u32,
    index: u32,
    owner: u32,
    amount: u32,
    out: &mut [u8],
) -> u64
    ensures { Encodes
        (mint_cause (byte_of receiver) (byte_of index) owner amount (length out.old))
        (mint_bytes (byte_of receiver) (byte_of index) owner amount)
        out.old result out.new }
{
    let to = narrow(receiver);
    let place = narrow(index);
    code(writer::write_mint(to, place, owner, amount, out))
}

// A record of kind 4: the receiving shard turns.
#[unsafe(no_mangle)]
pub extern "C" fn plankeeper_write_turn(receiver: u32, out: &mut [u8]) -> u64
    ensures { Encodes (turn_cause (byte_of receiver) (length out.old)) (turn_bytes (byte_of receiver))
        out.old result out.new }
{
    let to = narrow(receiver);
    code(writer::write_turn(to, out))
}
