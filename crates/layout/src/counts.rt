// The shard's number, how many tokens it holds and transactions it knows, the genesis indices given, whether it has
// turned; and an empty shard.
ghost use Rattle.std.specs.Prelude.{◌≡◌, true, false, ◌≤◌, ◌<◌, get_or, set};
ghost use Rattle.layout.specs.Layout.{token_slots, known_slots, genesis_slots, shard_of};
ghost use Rattle.layout.specs.Layout.{with_held, with_known, with_given, with_turned, Becomes, Cleared};

// Stays: casts between u32 and usize, since there is no From between these two.
use crate::kept::byte;
use crate::{GIVEN_PLACE, HELD_PLACE, KNOWN_PLACE, NUMBER_PLACE, SHARD_WORDS, TURNED_PLACE, Words};

pub fn own_number(s: &Words) -> u8
    ensures { result ≡ (shard_of s.now).number }
{
    byte(s[NUMBER_PLACE])
}

pub fn held(s: &Words) -> usize
    ensures { result ≡ (shard_of s.now).held }
{
    s[HELD_PLACE] as usize
}

pub fn known_count(s: &Words) -> usize
    ensures { result ≡ (shard_of s.now).known }
{
    s[KNOWN_PLACE] as usize
}

// The genesis index was given.
// Stays: `index < genesis_slots` here and in `give`. `was_given` of the crate `shard` is the one test of it, and what comes behind the
// table of refusals needs none.
pub fn is_given(s: &Words, index: usize) -> bool
    requires { index < genesis_slots }
    ensures { result ≡ get_or (shard_of s.now).given index false }
{
    s[GIVEN_PLACE + index] != 0
}

// The shard has turned.
pub fn is_turned(s: &Words) -> bool
    ensures { result ≡ (shard_of s.now).turned }
{
    s[TURNED_PLACE] != 0
}

pub fn set_held(s: &mut Words, n: usize)
    requires { n ≤ token_slots }
    ensures { Becomes (with_held (shard_of s.old) n) s.new }
{
    s[HELD_PLACE] = n as u32;
}

pub fn set_known_count(s: &mut Words, n: usize)
    requires { n ≤ known_slots }
    ensures { Becomes (with_known (shard_of s.old) n) s.new }
{
    s[KNOWN_PLACE] = n as u32;
}

// The genesis index is given.
pub fn give(s: &mut Words, index: usize)
    requires { index < genesis_slots }
    ensures { Becomes (with_given (shard_of s.old) (set (shard_of s.old).given index true))
        s.new }
{
    s[GIVEN_PLACE + index] = 1;
}

// The shard turns.
pub fn set_turned(s: &mut Words)
    ensures { Becomes (with_turned (shard_of s.old) true) s.new }
{
    s[TURNED_PLACE] = 1;
}

// An empty shard of that number, whatever stood here.
pub fn clear(s: &mut Words, number: u8)
    ensures { Cleared number s.new }
{
    *s = [0; SHARD_WORDS];
    s[NUMBER_PLACE] = u32::from(number);
}
