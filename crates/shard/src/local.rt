// The local step of a registration, as the text of document 000 goes (section 4): S is this shard and τ the transaction. What
// each of the four parts yields is for its own contract to say.
ghost use Rattle.holdings.specs.Held.{Room};
ghost use Rattle.shard.specs.Parts.{Pledges};

use holdings::availability::{available_here, inputs_here};
use holdings::finding::findings_here;
use holdings::pledging::pledge_all;
use holdings::voting::own_vote;
use layout::Words;
use layout::counts::own_number;
use model::Finding;
use transaction::Transaction;

// Stays: a bool for yes and no, which is all that a vote says; `Pledges` of the specification names the two fields.
// The four findings are those of `model::Known`.
// What the shard keeps of it with the transaction: its own vote, and what it found about each input here (document 02, 2).
#[derive(Clone, Copy)]
pub struct Own {
    pub verdict: bool,
    pub findings: [Finding; 4],
}

// First the inputs here, then the available ones among them, then the pledges, then the message.
pub(crate) fn local_step(s: &mut Words, t: Transaction) -> Own
    requires { Room s.old }
    ensures { Pledges t s.old result s.new }
{
    let me = own_number(s); // S
    let here = inputs_here(me, t); // I(S, τ) = {o ∈ Inputs(τ) | S = shard(o)}
    let findings = findings_here(s, &here); // what S finds about each of them now
    let found = available_here(&here, findings); // D(S, τ) ⊆ I(S, τ), those available
    pledge_all(s, t.number, &found); // S pledges D(S, τ) to τ
    let verdict = own_vote(&here, &found); // m(S, τ): yes if I(S, τ) = D(S, τ)
    Own { verdict, findings }
}
