// Many records read one behind the other, and a sum of what they hold: the benchmark's loop.
ghost use Rattle.std.specs.Prelude.{◌≡◌, ◌+◌, ◌%◌, ◌^◌, ◌<◌, ◌≤◌, if◌then◌else◌, nat_eq};
ghost use Rattle.probes.specs.Votes.{transaction_worth, record_worth, worth_of, sum_of};

use reader::Record;
use transaction::Transaction;
use transaction::refusal::Refusal;

// What a vote's transaction adds to the sum.
#[tactic(auto, unfolding(crate::specs::Votes::transaction_worth))]
fn transaction_worth(t: Transaction) -> u64
    ensures value { result ≡ transaction_worth t }
    ensures bound { result < 12884901888 }
{
    u64::from(t.number) + u64::from(t.outputs[1].owner) + u64::from(t.inputs[1].amount)
}

#[tactic(auto, unfolding(crate::specs::Votes::record_worth))]
fn record_worth(fields: Record, t: Transaction) -> u64
    ensures { result ≡ record_worth fields t }
{
    match fields {
        Record::Vote {
            receiver,
            sender,
            verdict,
        } => u64::from(receiver) + u64::from(sender) + u64::from(verdict) + transaction_worth(t),
        Record::Register { receiver } | Record::Turn { receiver } => u64::from(receiver),
        Record::Mint { amount, .. } => u64::from(amount),
    }
}

#[tactic(auto, unfolding(crate::specs::Votes::worth_of))]
fn worth(answer: Result<Record, Refusal>, t: Transaction) -> u64
    ensures { result ≡ worth_of answer t }
{
    match answer {
        Ok(fields) => record_worth(fields, t),
        Err(refusal) => 1000000 + u64::from(u8::from(refusal)),
    }
}

// The place behind what was taken, or the front again where nothing is left.
fn next_place(at: usize, taken: usize, size: usize) -> usize
    requires { at + taken ≤ size }
    ensures { result ≡ (if nat_eq (at + taken) size then 0 else at + taken) }
{
    let next = at + taken;
    if next == size { 0 } else { next }
}

#[unsafe(no_mangle)]
pub extern "C" fn probe_read_votes(bytes: &[u8], records: usize) -> u64
    ensures { result ≡ sum_of bytes.now bytes.now records % 2 ^ 64 }
{
    let mut sum: u64 = 0;
    let mut at = 0;
    for _ in 0..records {
        let reading = reader::read(&bytes[at..]);
        sum = sum.wrapping_add(worth(reading.answer, reading.transaction));
        at = next_place(at, reading.taken, bytes.len());
    }
    sum
}
