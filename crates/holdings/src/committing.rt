// Commit: the inputs here are destroyed, and the outputs here are made. The order of what stays is kept, and new tokens
// stand behind it.
ghost use Rattle.std.specs.Prelude.{[], ◌∷◌, ◌≤◌, length};
ghost use Rattle.model.specs.Steps.{made_here, commit};
ghost use Rattle.layout.specs.Layout.{token_slots, ledger_of};
ghost use Rattle.holdings.specs.Held.{made_from, adding, destroying, Room, Left, Changes, Settling, Settles};

use crate::Inputs;
use crate::availability::{inputs_here, names_token};
use crate::freeing::abort_at;
use layout::Words;
use layout::counts::{held, own_number, set_held};
use layout::entries::transaction_at;
use layout::tokens::{put_token, token_at};
use model::{Outcome, Token};
use transaction::{Input, Output, Transaction};

// What one input names goes; the others move together, so that a destroyed token's space is used again.
// Stays: a loop of its own beside `pledge_where`. It moves tokens and counts them, the other stores a pledge in its place.
fn destroy_named(s: &mut Words, x: Input)
    requires { Room s.old }
    ensures { Changes (destroying (x ∷ [])) s.old s.new }
{
    let n = held(s);
    let mut count: usize = 0;
    for k in 0..n {
        let token = token_at(s, k);
        if !names_token(x, token) {
            put_token(s, count, token);
            count += 1;
        }
    }
    set_held(s, count);
}

// The tokens that the inputs name are destroyed.
// Stays: the loop of `pledge_all` with another step. A call of one function that takes the step as a closure is no shorter than this
// `for` with its one call.
fn destroy(s: &mut Words, inputs: &Inputs)
    requires { Room s.old }
    ensures { Changes (destroying inputs.now) s.old s.new }
{
    for x in inputs.as_slice() {
        destroy_named(s, *x);
    }
}

// One token more, behind those that are held.
pub fn push_token(s: &mut Words, token: Token)
    requires { Left s.old 1 }
    ensures { Changes (adding (token ∷ [])) s.old s.new }
{
    let n = held(s);
    put_token(s, n, token);
    set_held(s, n + 1);
}

// The token of an output, where it is at this shard.
fn make_one(s: &mut Words, me: u8, number: u32, index: u8, y: Output)
    requires { Left s.old (length (made_from me number index y)) }
    ensures { Changes (adding (made_from me number index y)) s.old s.new }
{
    if y.shard == me {
        let token = Token {
            creator: number,
            index,
            owner: y.owner,
            amount: y.amount,
            pledge: 0,
        };
        push_token(s, token);
    }
}

// The outputs here are made.
fn make(s: &mut Words, me: u8, t: Transaction)
    requires { Left s.old (length (made_here me t)) }
    ensures { Changes (adding (made_here me t)) s.old s.new }
{
    for (i, y) in t.used_outputs().iter().enumerate() {
        // Stays: a cast, since there is no From from usize to u8.
        make_one(s, me, t.number, i as u8, *y);
    }
}

fn commit_here(s: &mut Words, me: u8, t: Transaction)
    requires { Room s.old × (length (commit me t (ledger_of s.old).tokens) ≤ token_slots) }
    ensures { Changes (commit me t) s.old s.new }
{
    let inputs = inputs_here(me, t);
    destroy(s, &inputs);
    make(s, me, t);
}

// The known transaction in a slot is committed.
fn commit_at(s: &mut Words, place: usize)
    requires { Settling Outcome.Commit place s.old }
    ensures { Settles Outcome.Commit place s.old s.new }
{
    let me = own_number(s);
    let t = transaction_at(s, place);
    commit_here(s, me, t);
}

// The tokens after a decision on the known transaction in a slot: a commit changes them, an abort may free some.
pub fn settle_at(s: &mut Words, place: usize, decided: Outcome)
    requires { Settling decided place s.old }
    ensures { Settles decided place s.old s.new }
{
    match decided {
        Outcome::Commit => commit_at(s, place),
        Outcome::Wait => {}
        Outcome::Abort => abort_at(s, place),
    }
}
