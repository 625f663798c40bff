// What can be asked of a lone shard: exported functions. Nothing is changed but the words lent for the answer.
// Stays: the C interface. include/plankeeper.h declares a function for a cluster and one for a lone shard, each by its own name: C has no generic functions.
// Stays: that the memory is `Sound` is asked of each caller, since C lends it as a pointer.
ghost use Rattle.std.specs.Prelude.{◌≡◌, length};
ghost use Rattle.model.specs.Findings.{report};
ghost use Rattle.shard.specs.View.{view, Sound};
ghost use Rattle.shard.specs.View as View;
ghost use Rattle.model.specs.Totals.{total_amount};
ghost use Rattle.shard.specs.Queries.{outcome_of_number};
ghost use Rattle.words.specs.Words.{yes, byte_of};
ghost use Rattle.engine.specs.Queries.{known_code, TellsToken, TellsKnown, TellsFindings};

use crate::findings::tell;
use crate::ledgers::{known_code, tell_known, tell_token};
use layout::Words;
use shard::{queries, reporting};
use words::narrow;

// How many tokens it holds.
#[unsafe(no_mangle)]
pub extern "C" fn plankeeper_shard_held_count(s: &Words) -> usize
    requires { Sound s.now }
    ensures { result ≡ length (view s.now).tokens }
{
    queries::held_count(s)
}

// The token at a place of those that it holds: 1 and the token's words, or 0 and zeros.
#[unsafe(no_mangle)]
pub extern "C" fn plankeeper_shard_token_at(s: &Words, place: usize, token: &mut [u32; 5]) -> u32
    requires { Sound s.now }
    ensures { TellsToken (view s.now).tokens place result token.new }
{
    tell_token(queries::token_at(s, place), token)
}

// How many transactions it knows.
#[unsafe(no_mangle)]
pub extern "C" fn plankeeper_shard_known_count(s: &Words) -> usize
    requires { Sound s.now }
    ensures { result ≡ length (view s.now).known }
{
    queries::known_count(s)
}

// The transaction at a place of those that it knows: its outcome here, its words and the verdicts heard; or 3 and
// zeros.
#[unsafe(no_mangle)]
pub extern "C" fn plankeeper_shard_known_at(s: &Words, place: usize, known: &mut [u32; 43]) -> u32
    requires { Sound s.now }
    ensures { TellsKnown (view s.now).known place result known.new }
{
    tell_known(
        queries::get_known(s, place),
        queries::outcome_at(s, place),
        known,
    )
}

// The outcome here of the transaction that it knows by that number; 3 for none.
#[unsafe(no_mangle)]
pub extern "C" fn plankeeper_shard_outcome_of(s: &Words, number: u32) -> u32
    requires { Sound s.now }
    ensures { result ≡ known_code (outcome_of_number (view s.now).known number) }
{
    known_code(queries::outcome_of(s, number))
}

// What it found about its inputs of the transaction of that number (document 02, 2): 700 + how many findings, and their
// words; or refused with 3 (also for a shard that is not this one) or 18.
#[unsafe(no_mangle)]
pub extern "C" fn plankeeper_shard_findings(
    s: &Words,
    shard: u32,
    number: u32,
    findings: &mut [u32; 8],
) -> u32
    requires { Sound s.now }
    ensures { TellsFindings (report (View.number s.now) (view s.now) (byte_of shard) number)
        findings.old result findings.new }
{
    tell(reporting::findings_of(s, narrow(shard), number), findings)
}

// 1 if it has turned, 0 if not.
#[unsafe(no_mangle)]
pub extern "C" fn plankeeper_shard_is_turned(s: &Words) -> u32
    requires { Sound s.now }
    ensures { result ≡ yes (view s.now).turned }
{
    u32::from(queries::is_turned(s))
}

// The sum of the amounts that it holds (document 01: of the portions).
#[unsafe(no_mangle)]
pub extern "C" fn plankeeper_shard_total(s: &Words) -> u64
    requires { Sound s.now }
    ensures { result ≡ total_amount (view s.now).tokens }
{
    queries::total_amount(s)
}
