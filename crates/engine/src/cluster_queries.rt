// What can be asked of a cluster: exported functions. Nothing is changed but the words lent for the answer. A shard
// above 7 is an empty one; where findings are asked for, it is refused.
// Stays: the C interface. include/plankeeper.h declares a function for a cluster and one for a lone shard, each by its own name: C has no generic functions.
// Stays: that the memory is `Sound` is asked of each caller, since C lends it as a pointer.
ghost use Rattle.std.specs.Prelude.{◌≡◌, length};
ghost use Rattle.model.specs.Steps.{house};
ghost use Rattle.model.specs.Cluster.{ledger_at};
ghost use Rattle.model.specs.Findings.{report_at};
ghost use Rattle.shard.specs.Queries.{outcome_of_number};
ghost use Rattle.cluster.specs.View.{view, Sound};
ghost use Rattle.model.specs.Totals.{held_in, total_held};
ghost use Rattle.words.specs.Words.{yes, byte_of};
ghost use Rattle.engine.specs.Queries.{known_code, TellsToken, TellsKnown, TellsFindings};

use crate::findings::tell;
use crate::ledgers::{known_code, tell_known, tell_token};
use cluster::{Cluster, queries};
use words::narrow;

// How many tokens the shard holds.
#[unsafe(no_mangle)]
pub extern "C" fn plankeeper_held_count(c: &Cluster, shard: u32) -> usize
    requires { Sound c.now }
    ensures { result ≡ length (ledger_at house (view c.now) (byte_of shard)).tokens }
{
    queries::held_count(c, narrow(shard))
}

// The token at a place of those that it holds: 1 and the token's words, or 0 and zeros.
#[unsafe(no_mangle)]
pub extern "C" fn plankeeper_token_at(
    c: &Cluster,
    shard: u32,
    place: usize,
    token: &mut [u32; 5],
) -> u32
    requires { Sound c.now }
    ensures { TellsToken
        (ledger_at house (view c.now) (byte_of shard)).tokens place result token.new }
{
    tell_token(queries::token_at(c, narrow(shard), place), token)
}

// How many transactions it knows.
#[unsafe(no_mangle)]
pub extern "C" fn plankeeper_known_count(c: &Cluster, shard: u32) -> usize
    requires { Sound c.now }
    ensures { result ≡ length (ledger_at house (view c.now) (byte_of shard)).known }
{
    queries::known_count(c, narrow(shard))
}

// The transaction at a place of those that it knows: its outcome there, its words and the verdicts heard; or 3 and
// zeros.
#[unsafe(no_mangle)]
pub extern "C" fn plankeeper_known_at(
    c: &Cluster,
    shard: u32,
    place: usize,
    known: &mut [u32; 43],
) -> u32
    requires { Sound c.now }
    ensures { TellsKnown
        (ledger_at house (view c.now) (byte_of shard)).known place result known.new }
{
    let at = narrow(shard);
    tell_known(
        queries::get_known(c, at, place),
        queries::outcome_at(c, at, place),
        known,
    )
}

// The outcome there of the transaction that it knows by that number; 3 for none.
#[unsafe(no_mangle)]
pub extern "C" fn plankeeper_outcome_of(c: &Cluster, shard: u32, number: u32) -> u32
    requires { Sound c.now }
    ensures { result ≡ known_code
        (outcome_of_number (ledger_at house (view c.now) (byte_of shard)).known number) }
{
    known_code(queries::outcome_of(c, narrow(shard), number))
}

// What it found about its inputs of the transaction of that number (document 02, 2): 700 + how many findings, and their
// words; or refused with 3 or 18.
#[unsafe(no_mangle)]
pub extern "C" fn plankeeper_findings(
    c: &Cluster,
    shard: u32,
    number: u32,
    findings: &mut [u32; 8],
) -> u32
    requires { Sound c.now }
    ensures { TellsFindings (report_at house (view c.now) (byte_of shard) number)
        findings.old result findings.new }
{
    tell(queries::findings_of(c, narrow(shard), number), findings)
}

// 1 if it has turned, 0 if not.
#[unsafe(no_mangle)]
pub extern "C" fn plankeeper_is_turned(c: &Cluster, shard: u32) -> u32
    requires { Sound c.now }
    ensures { result ≡ yes (ledger_at house (view c.now) (byte_of shard)).turned }
{
    u32::from(queries::is_turned(c, narrow(shard)))
}

// The sum of the amounts that it holds (document 01: the portions held in a pantry).
#[unsafe(no_mangle)]
pub extern "C" fn plankeeper_total_at(c: &Cluster, shard: u32) -> u64
    requires { Sound c.now }
    ensures { result ≡ held_in (ledger_at house (view c.now) (byte_of shard)) }
{
    queries::amount_at(c, narrow(shard))
}

// The sum of the amounts held in all shards (document 01: the portions held in all pantries).
#[unsafe(no_mangle)]
pub extern "C" fn plankeeper_total(c: &Cluster) -> u64
    requires { Sound c.now }
    ensures { result ≡ total_held (view c.now) }
{
    queries::total_amount(c)
}
