// The tokens held, one at a time.
// Stays: a slot is its number, and `k < token_slots` stands in each contract, as in `entries`.
ghost use Rattle.std.specs.Prelude.{◌≡◌, ◌&&◌, ◌<◌, eqb};
ghost use Rattle.model.specs.Steps.{pledged_to};
ghost use Rattle.layout.specs.Layout.{token_slots, slot_token, PutsToken};

use crate::kept::{Kept, byte};
use crate::{TOKEN_SIZE, TOKENS_PLACE, Words};
use model::Token;

pub fn token_at(s: &Words, k: usize) -> Token
    requires { k < token_slots }
    ensures { result ≡ slot_token s.now k }
{
    Token::read(s, TOKENS_PLACE + k * TOKEN_SIZE)
}

// Only its id, for searches: the token has that creator and index.
// Stays: compared word by word. A token read first and compared by `==` would be five words at each place of a search.
pub fn is_token(s: &Words, k: usize, creator: u32, index: u8) -> bool
    requires { k < token_slots }
    ensures { result ≡ (eqb (slot_token s.now k).creator creator
        && eqb (slot_token s.now k).index index) }
{
    let b = TOKENS_PLACE + k * TOKEN_SIZE;
    (s[b] == creator) & (byte(s[b + 1]) == index)
}

// Only its amount, for sums.
pub fn amount_at(s: &Words, k: usize) -> u32
    requires { k < token_slots }
    ensures { result ≡ (slot_token s.now k).amount }
{
    s[TOKENS_PLACE + k * TOKEN_SIZE + 3]
}

pub fn put_token(s: &mut Words, k: usize, t: Token)
    requires { k < token_slots }
    ensures { PutsToken s.old k t s.new }
{
    t.put(s, TOKENS_PLACE + k * TOKEN_SIZE);
}

// The token is pledged to the transaction of that number.
pub fn put_pledge(s: &mut Words, k: usize, number: u32)
    requires { k < token_slots }
    ensures { PutsToken s.old k (pledged_to number (slot_token s.old k)) s.new }
{
    s[TOKENS_PLACE + k * TOKEN_SIZE + 4] = number;
}
