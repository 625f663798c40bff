// Why a record or a call is refused: document 01's table of refusals, and the rows that document 02 adds to it.
ghost use Rattle.std.specs.Prelude.{◌≡◌};
ghost use Rattle.transaction.specs.Refusals.{refusal_number};

// The rows, with their numbers from 1 on.
#[derive(Clone, Copy, PartialEq, Eq)]
pub enum Refusal {
    UnknownKind = 1, // the kind is none of 1 to 4
    TooShort, // no bytes, or fewer than the kind's length
    OutOfRange, // a field or a count outside its range; a shard above 7; an unused slot that is not zero
    TokenTwice, // one token is named twice
    SumsDiffer, // inputs and outputs have different sums
    NotTakingPart, // the receiver or the sender is none of the transaction's shards
    NumberTaken, // the number is known here for a different transaction
    KnownAlready, // this transaction is known here
    TransactionsFull, // as many transactions are known as a shard can know
    TokensFull, // tokens would pass what a shard can hold
    NumberUnknown, // the number is not known here, and the vote is the shard's own
    OtherVerdict, // the other verdict was heard from this sender
    MintTooLate, // a transaction is known here, so that no genesis token is given any more
    IndexGiven, // this genesis index was given
    BufferTooShort, // the lent bytes are fewer than the record
    VoteNotGiven, // the sender has not given this vote on this transaction
    HeldOff, // an input here is what an undecided transaction is to make here
    NoSuchNumber, // findings are asked for, and the number is not known here
    TurnedAlready, // the shard has turned
}

// A refusal's number in the table.
impl From<Refusal> for u8 {
    ghost from_gives = { λ refusal number. number ≡ refusal_number refusal };

    // Stays: a cast. It is how an enum with numbers gives its number.
    fn from(refusal: Refusal) -> u8 {
        refusal as u8
    }
}
