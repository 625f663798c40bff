// One shard's ledger (document 01: a pantry's), in place: each call is lent the shard's words, changes them and answers.
// The interface: `new`, `mint_token`, `register_transaction`, `hear_vote`, `turn_shard`, `has_given_vote`, all of `queries`, and
// `reporting::findings_of`. Internal, and public only because the crate `cluster` calls them: `hear_formed` with its `Vote`, and
// `refusals::deliver_form`.
// Stays: `Sound s` in each contract. C lends the words as an array, and to take them for a struct with that invariant would be unsafe. A
// struct around the loan, `struct Shard<'a> { words: &'a mut Words, ghost sound: .. }`, was tried and proves, but then each function owes
// `same_reference`, and each export makes the struct first and still asks for `Sound`: no plainer.
// Stays: a slot is its number, `place`, beside the words that C lends (`layout::entries` says why).
// Stays: each call and each question here, and in `cluster` once more. Both are public, and C calls both; the cluster's is a line or two.
// Stays: (receiver, index, owner, amount) and (receiver, sender, verdict, t) one by one, as the specification's `Call` and the exports
// have them. A struct would be made at each export and taken apart at each check; `Vote` is what is left behind the form.
#![tactic(auto)]

ghost use Rattle.std.specs.Prelude.{◌≡◌, true, position};
ghost use Rattle.transaction.specs.Lists.{first_of};
ghost use Rattle.model.specs.Steps.{house};
ghost use Rattle.model.specs.Shard.{is_numbered, mint, register, deliver, turn, is_unknown, deliver_form};
ghost use Rattle.model.specs.Cluster.{gave};
ghost use Rattle.shard.specs.View.{number, view, Sound, Fresh, Steps};

use layout::Words;
use layout::counts::own_number;
use model::{Answer, Done};
use registry::finding::place_of_number;
use transaction::Transaction;

mod rows; // the rows of the tables of refusals
pub mod refusals; // the tables of refusals; internal
mod local; // the local step of a registration
mod steps; // the steps that a call that passes takes
mod turning; // the step of a turn
pub mod queries; // what can be asked of a shard
pub mod reporting; // what it found about the inputs of a known transaction

// What a vote says: its sender, the verdict, 1 for yes and 0 for no, and the transaction. Internal, as `hear_formed` is.
#[derive(Clone, Copy)]
pub struct Vote {
    pub sender: u8,
    pub verdict: u8,
    pub transaction: Transaction,
}

// An empty shard of that number, whatever the words were.
pub fn new(s: &mut Words, me: u8)
    ensures { Fresh me s.new }
{
    layout::counts::clear(s, me);
}

// An opening: the shard holds a genesis token.
// Stays: index, owner and amount go on one by one, as C hands them over; two functions behind this one take them, and a struct would be
// taken apart at once.
pub fn mint_token(s: &mut Words, receiver: u8, index: u8, owner: u32, amount: u32) -> Answer
    requires { Sound s.old }
    ensures { Steps s.old (mint receiver index owner amount) result s.new }
{
    refusals::mint_refusal(s, receiver, index, owner, amount)?;
    steps::after_mint(s, index, owner, amount);
    Ok(Done::Minted)
}

// A registration: available inputs are pledged, the shard votes, and decides if its vote is no or it is the only one.
pub fn register_transaction(s: &mut Words, receiver: u8, t: Transaction) -> Answer
    requires { Sound s.old }
    ensures { Steps s.old (register receiver t) result s.new }
{
    refusals::register_refusal(s, receiver, t)?;
    Ok(steps::carry_registration(s, t))
}

// A vote of another shard, or of its own: fresh or repeated; on an unknown number it brings its transaction.
pub fn hear_vote(s: &mut Words, receiver: u8, sender: u8, verdict: u8, t: Transaction) -> Answer
    requires { Sound s.old }
    ensures { Steps s.old (deliver receiver sender verdict t) result s.new }
{
    let vote = Vote {
        sender,
        verdict,
        transaction: t,
    };
    refusals::deliver_form(own_number(s), receiver, &vote)?;
    hear_formed(s, &vote)
}

// A vote to this shard that has passed 3 to 6. Internal: a cluster, which asks for 16 behind them, calls it so that they are asked for once.
pub fn hear_formed(s: &mut Words, vote: &Vote) -> Answer
    requires sound { Sound s.old }
    requires formed { first_of (deliver_form house (number s.old) (number s.old) vote.now.sender vote.now.verdict vote.now.transaction) ≡ Ok tt }
    ensures { Steps s.old (deliver (number s.old) vote.now.sender vote.now.verdict vote.now.transaction) result s.new }
{
    match place_of_number(s, vote.transaction.number) {
        Some(place) => hear(s, place, vote),
        None => bring(s, vote),
    }
}

// One on an unknown number.
fn bring(s: &mut Words, vote: &Vote) -> Answer
    requires sound { Sound s.old }
    requires formed { first_of (deliver_form house (number s.old) (number s.old) vote.now.sender vote.now.verdict vote.now.transaction) ≡ Ok tt }
    requires unknown { is_unknown vote.now.transaction (view s.old).known ≡ true }
    ensures { Steps s.old (deliver (number s.old) vote.now.sender vote.now.verdict vote.now.transaction) result s.new }
{
    refusals::bring_rest(s, vote)?;
    Ok(steps::carry_brought(s, vote))
}

// One on a known number, which stands at the place.
fn hear(s: &mut Words, place: usize, vote: &Vote) -> Answer
    requires sound { Sound s.old }
    requires formed { first_of (deliver_form house (number s.old) (number s.old) vote.now.sender vote.now.verdict vote.now.transaction) ≡ Ok tt }
    requires there { position (is_numbered vote.now.transaction.number) (view s.old).known ≡ Some place }
    ensures { Steps s.old (deliver (number s.old) vote.now.sender vote.now.verdict vote.now.transaction) result s.new }
{
    refusals::hear_rest(s, place, vote)?;
    Ok(steps::carry_vote(s, place, vote))
}

// A turn: what is pledged to transactions that the shard has aborted comes free, and from now on each abort frees its own.
pub fn turn_shard(s: &mut Words, receiver: u8) -> Answer
    requires { Sound s.old }
    ensures { Steps s.old (turn receiver) result s.new }
{
    refusals::turn_refusal(s, receiver)?;
    turning::after_turn(s);
    Ok(Done::Turned)
}

// The shard has given this vote on this transaction; asked of the sender before a cluster delivers it.
pub fn has_given_vote(s: &Words, sender: u8, verdict: u8, t: Transaction) -> bool
    requires { Sound s.now }
    ensures { result ≡ gave (view s.now) sender verdict t }
{
    registry::finding::has_given(s, sender, verdict, t)
}
