// What the engine says of a transaction: the first fitting of the checks 3 to 5, who takes part, equality.
ghost use Rattle.std.specs.Prelude.{◌≡◌};
ghost use Rattle.transaction.specs.Tokens.{takes_part, same_transaction};
ghost use Rattle.transaction.specs.Refusals.{number_of};
ghost use Rattle.transaction.specs.Checks.{cause_of};
ghost use Rattle.words.specs.Words.{yes, byte_of, transaction_from};

use words::{narrow, number_of, transaction_from};

// The first of 3, 4, 5 that fits, where a shard has so many genesis indices (document 01: opening positions); 0 for
// none.
#[unsafe(no_mangle)]
pub extern "C" fn probe_cause(genesis: u32, transaction: &[u32; 35]) -> u32
    ensures { result ≡ number_of (cause_of (byte_of genesis) (transaction_from transaction.now)) }
{
    let limit = narrow(genesis);
    let t = transaction_from(transaction);
    number_of(transaction::checks::cause(limit, t))
}

// 1 where the shard (document 01: the pantry) takes part in the transaction, 0 where it does not.
#[unsafe(no_mangle)]
pub extern "C" fn probe_takes_part(shard: u32, transaction: &[u32; 35]) -> u32
    ensures { result ≡ yes (takes_part (byte_of shard) (transaction_from transaction.now)) }
{
    let at = narrow(shard);
    let t = transaction_from(transaction);
    u32::from(transaction::parts::takes_part(at, t))
}

// 1 where every field of the two agrees, 0 where one does not.
#[unsafe(no_mangle)]
pub extern "C" fn probe_same(a: &[u32; 35], b: &[u32; 35]) -> u32
    ensures { result ≡ yes (same_transaction (transaction_from a.now) (transaction_from b.now)) }
{
    let s = transaction_from(a);
    let t = transaction_from(b);
    u32::from(transaction::equality::same_transaction(s, t))
}
