// Reader and writers together: a record read writes back as the same bytes,
// a record written reads back as the same fields.
#![tactic(auto)]

ghost use Rattle.std.specs.Prelude.{◌≡◌, length};
ghost use Rattle.writer.specs.Writing.{Writes};
ghost use Rattle.codec.specs.Records.{record_bytes, record_cause, read_back, Copies};

use reader::{Reading, Record};
use transaction::Transaction;
use transaction::refusal::Refusal;

// A record of any kind, as the reader gives it. A genesis token's record and a turn take nothing of the transaction.
// Stays: a record's fields and its transaction side by side, as `Reading` has them; the definition `record_cause` takes both.
pub fn write(fields: Record, t: Transaction, out: &mut [u8]) -> Result<usize, Refusal>
    ensures { Writes (record_cause fields t (length out.old)) (record_bytes fields t)
        out.old result out.new }
{
    match fields {
        Record::Register { receiver } => writer::write_register(receiver, t, out),
        Record::Vote {
            receiver,
            sender,
            verdict,
        } => writer::write_vote(receiver, sender, verdict, t, out),
        Record::Mint {
            receiver,
            index,
            owner,
            amount,
        } => writer::write_mint(receiver, index, owner, amount, out),
        Record::Turn { receiver } => writer::write_turn(receiver, out),
    }
}

// Writes the record, and reads what then stands at the front.
pub fn write_and_read(fields: Record, t: Transaction, out: &mut [u8]) -> Reading
    ensures { result ≡ read_back fields t out.old }
{
    let _ = write(fields, t, out);
    reader::read(out)
}

// Reads the record at the front of the bytes, and writes its fields into the lent bytes: the same bytes again.
pub fn copy(bytes: &[u8], out: &mut [u8]) -> Result<usize, Refusal>
    ensures { Copies bytes.now out.old result out.new }
{
    let reading = reader::read(bytes);
    let fields = reading.answer?;
    write(fields, reading.transaction, out)
}
