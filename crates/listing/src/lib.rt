// The listing: document 01, 'The listing program'. Each line's bytes and the total; the program only reads and prints.
// Stays: `Sound c` in contracts, for the reason that the crate `shard` has for its own.
#![tactic(auto)]

ghost use Rattle.std.specs.Prelude.{◌≡◌, ◌+◌, ◌≤◌, leb, length};
ghost use Rattle.transaction.specs.Refusals.{refusal_number};
ghost use Rattle.cluster.specs.View.{view, Sound};
ghost use Rattle.model.specs.Totals.{total_held};
ghost use Rattle.listing.specs.Lines.{unplaced, place_word, place_text, total_line};
ghost use Rattle.listing.specs.Parts.{Shows};
ghost use Rattle.listing.specs.Listing.{receiver_of, Lists};
ghost use Rattle.listing.specs.Buffers.{going, ListsAll};

use calls::call;
use cluster::Cluster;
use line::Line;
use model::Answer;
use reader::Record;
use transaction::refusal::Refusal;

mod line; // the bytes of a line

// The place behind a step's line, the bytes taken from the front, and whether reading ends.
// Stays: the definition `Lists` and the theorem `whole_listing` name `ends`, and no field is void where it is set.
#[derive(Clone, Copy)]
pub struct Listed {
    pub at: usize,
    pub taken: usize,
    pub ends: bool,
}

// The number of the next step, the bytes taken, the bytes of text, and whether reading ends.
// Stays: the definition `ListsAll` and `whole_listing_by_parts` name `ends`, and no field is void where it is set.
#[derive(Clone, Copy)]
pub struct Progress {
    pub number: u64,
    pub taken: usize,
    pub used: usize,
    pub ends: bool,
}

// A record's receiving shard.
fn receiver_of(fields: Record) -> u8
    ensures { result ≡ receiver_of fields }
{
    match fields {
        Record::Register { receiver }
        | Record::Vote { receiver, .. }
        | Record::Mint { receiver, .. }
        | Record::Turn { receiver } => receiver,
    }
}

// Where a line says that its call was answered: none for refusals 1 to 5, else the receiving shard.
fn place_of(answer: Answer, receiver: u8) -> Option<u8>
    ensures { place_text result ≡ place_word (unplaced answer) receiver }
{
    match answer {
        Err(refusal) if u8::from(refusal) <= 5 => None,
        _ => Some(receiver),
    }
}

// No whole record stands at the front: nothing behind it is read.
fn ends_reading(refusal: Refusal) -> bool
    ensures { result ≡ leb (refusal_number refusal) 2 }
{
    matches!(refusal, Refusal::UnknownKind | Refusal::TooShort)
}

// The record at the front of the bytes: its call, made on the lent cluster, and its line, stored from a place on.
// Whoever calls it sees to the room for a line, as `list_records` does.
// Stays: `out` with a place in it, since `Stepped`, of which the theorem `whole_listing` speaks, reads these arguments.
pub(crate) fn step(c: &mut Cluster, number: u64, bytes: &[u8], out: &mut [u8], at: usize) -> Listed
    requires { Sound c.old × (at + 64 ≤ length out.old) }
    ensures { Lists c.old number bytes.now out.old at result
        c.new out.new }
{
    let reading = reader::read(bytes);
    let Ok(fields) = reading.answer else {
        let refusal = reading.answer.unwrap_err();
        let line = Line::of_step(number, None, Err(refusal));
        return Listed {
            at: line.store(out, at),
            taken: reading.taken,
            ends: ends_reading(refusal),
        };
    };
    let answer = call(c, fields, reading.transaction);
    let line = Line::of_step(number, place_of(answer, receiver_of(fields)), answer);
    Listed {
        at: line.store(out, at),
        taken: reading.taken,
        ends: false,
    }
}

impl Progress {
    // Reading has not ended, as many bytes as are wanted are left, and one at least, a line has room, and the step has
    // a number of 64 bits.
    fn goes_on(&self, left: usize, wanted: usize, room: usize) -> bool
        ensures { result ≡ going self.now.ends left wanted room self.now.number }
    {
        !self.ends && 0 < left && wanted <= left && 64 <= room && self.number < u64::MAX
    }
}

// Record after record from the front of the bytes, line behind line from the front of the lent bytes. Fewer bytes than
// are wanted may be a part of a record.
pub fn list_records(
    c: &mut Cluster,
    number: u64,
    bytes: &[u8],
    wanted: usize,
    out: &mut [u8],
) -> Progress
    requires { Sound c.old }
    ensures { ListsAll c.old number bytes.now wanted out.old result
        c.new out.new }
{
    let mut so_far = Progress {
        number,
        taken: 0,
        used: 0,
        ends: false,
    };
    // Stays: a while. It counts nothing; each record says how far it goes.
    while so_far.goes_on(bytes.len() - so_far.taken, wanted, out.len() - so_far.used) {
        let line = step(c, so_far.number, &bytes[so_far.taken..], out, so_far.used);
        so_far = Progress {
            number: so_far.number + 1,
            taken: so_far.taken + line.taken,
            used: line.at,
            ends: line.ends,
        };
    }
    so_far
}

// The last line: TOTAL and the amounts held at all shards, stored from the front of the lent line.
// Stays: how many bytes the line has, as the definition `Shows` speaks of it.
pub fn total(c: &Cluster, line: &mut [u8; 64]) -> usize
    requires { Sound c.now }
    ensures { Shows (total_line (total_held (view c.now))) line.old line.new result }
{
    let amount = cluster::queries::total_amount(c);
    Line::of_total(amount).store(line, 0)
}
