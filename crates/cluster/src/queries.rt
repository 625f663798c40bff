// What can be asked of a cluster; nothing of it is changed. A shard above 7 is an empty one; where findings are asked for, it
// is refused.
// Stays: a shard is its number beside the cluster that C lends, since any number can be asked for. `shard_at` is the one place that looks.
ghost use Rattle.std.specs.Prelude.{◌≡◌, length, MatchOption};
ghost use Rattle.model.specs.Steps.{house};
ghost use Rattle.model.specs.Cluster.{ledger_at};
ghost use Rattle.model.specs.Findings.{report_at};
ghost use Rattle.shard.specs.Queries.{token_at, get_known, known_at, outcome_at, outcome_of_number};
ghost use Rattle.cluster.specs.View.{view, Sound, NoShard, IsShard};
ghost use Rattle.model.specs.Totals.{held_in, total_held};

use crate::Cluster;
use layout::Words;
use model::{Known, Outcome, Report, Token};
use shard::{queries, reporting};
use transaction::refusal::Refusal;

// The shard of that number, if there is one.
fn shard_at(c: &Cluster, number: u8) -> Option<&Words>
    requires { Sound c.now }
    ensures { MatchOption result (NoShard c.now number) (λ s. IsShard c.now number s.now) }
{
    c.get(usize::from(number))
}

// How many tokens the shard of that number holds.
pub fn held_count(c: &Cluster, number: u8) -> usize
    requires { Sound c.now }
    ensures { result ≡ length (ledger_at house (view c.now) number).tokens }
{
    shard_at(c, number).map_or(0, queries::held_count)
}

// The token at a place of those that it holds.
pub fn token_at(c: &Cluster, number: u8, place: usize) -> Option<Token>
    requires { Sound c.now }
    ensures { result ≡ token_at (ledger_at house (view c.now) number).tokens place }
{
    let s = shard_at(c, number)?;
    queries::token_at(s, place)
}

// How many transactions it knows.
pub fn known_count(c: &Cluster, number: u8) -> usize
    requires { Sound c.now }
    ensures { result ≡ length (ledger_at house (view c.now) number).known }
{
    shard_at(c, number).map_or(0, queries::known_count)
}

// The transaction at a place of those that it knows; none behind the last.
pub fn get_known(c: &Cluster, number: u8, place: usize) -> Option<Known>
    requires { Sound c.now }
    ensures { result ≡ get_known (ledger_at house (view c.now) number).known place }
{
    let s = shard_at(c, number)?;
    queries::get_known(s, place)
}

// The transaction at a place of those that it knows; a blank one behind the last.
// Stays: zeros where nothing is, as `known_at` of the crate `shard` has them.
pub fn known_at(c: &Cluster, number: u8, place: usize) -> Known
    requires { Sound c.now }
    ensures { result ≡ known_at (ledger_at house (view c.now) number).known place }
{
    match shard_at(c, number) {
        Some(s) => queries::known_at(s, place),
        None => queries::blank_known(),
    }
}

// The outcome there of the transaction at a place of those that it knows.
pub fn outcome_at(c: &Cluster, number: u8, place: usize) -> Option<Outcome>
    requires { Sound c.now }
    ensures { result ≡ outcome_at (ledger_at house (view c.now) number).known place }
{
    let s = shard_at(c, number)?;
    queries::outcome_at(s, place)
}

// The outcome there of the transaction of that number.
pub fn outcome_of(c: &Cluster, number: u8, transaction: u32) -> Option<Outcome>
    requires { Sound c.now }
    ensures { result ≡ outcome_of_number (ledger_at house (view c.now) number).known transaction }
{
    let s = shard_at(c, number)?;
    queries::outcome_of(s, transaction)
}

// What it found about its inputs of the transaction of that number (document 02, 2): 3 for a shard above 7 and for the
// number 0, 18 for a number that is not known there.
pub fn findings_of(c: &Cluster, number: u8, transaction: u32) -> Report
    requires { Sound c.now }
    ensures { result ≡ report_at house (view c.now) number transaction }
{
    let s = shard_at(c, number).ok_or(Refusal::OutOfRange)?;
    reporting::findings_of(s, number, transaction)
}

// It has turned (document 02, 4).
pub fn is_turned(c: &Cluster, number: u8) -> bool
    requires { Sound c.now }
    ensures { result ≡ (ledger_at house (view c.now) number).turned }
{
    shard_at(c, number).is_some_and(queries::is_turned)
}

// The sum of the amounts that it holds (document 01: the portions held in a pantry).
pub fn amount_at(c: &Cluster, number: u8) -> u64
    requires { Sound c.now }
    ensures { result ≡ held_in (ledger_at house (view c.now) number) }
{
    shard_at(c, number).map_or(0, queries::total_amount)
}

// The sum of the amounts held in all shards (document 01: the portions held in all pantries).
pub fn total_amount(c: &Cluster) -> u64
    requires { Sound c.now }
    ensures { result ≡ total_held (view c.now) }
{
    let mut sum = 0;
    for s in c {
        sum += queries::total_amount(s);
    }
    sum
}
