// Words of a run, pointers and low parts, stored once they are known.
#![tactic(auto)]

ghost use Rattle.std.specs.Prelude.{◌≡◌, ◌+◌, ◌-◌, ◌*◌, ◌/◌, ◌^◌, ◌<◌, ◌≤◌, length};
ghost use Rattle.filllaws.specs.Filling.{Stored, Flushed, Lower};

use filllaws::Lows;
use rules::{POINTER_SIZE, POINTER_ZERO_AT};

// Writes words of a run up to number `to`: acc, and zeros above it. Gives what is left of acc.
pub fn put_words(room: &mut [u8], at: usize, from: usize, to: usize, acc: u64) -> u64
    requires { (from ≤ to) × (at + 8 * to ≤ length room.old) }
    ensures { Flushed at from (to - from) acc result room.old room.new }
{
    let mut word = acc;
    for k in from..to {
        numbers::write_u64(room, at + 8 * k, word);
        word = 0;
    }
    word
}

// Writes the pointers from number `next` on that stand at most `high` zeros in, with `count` elements before each.
pub fn put_pointers(room: &mut [u8], next: usize, high: usize, count: usize) -> usize
    requires { (0 < next) × (next ≤ high / 256 + 1)
        × (13 + 4 * (high / 256) ≤ length room.old) × (high + count < 2 ^ 32) }
    ensures { (result ≡ high / 256 + 1)
        × Stored 4 9 (λ q. 256 * q + count) next result room.old room.new }
{
    let end = high / 256 + 1;
    for q in next..end {
        numbers::write_u32(
            room,
            POINTER_ZERO_AT + POINTER_SIZE * q,
            (256 * q + count) as u64,
        );
    }
    end
}

// Lays the w low bits of x above the lower run, and writes its word when that is full.
pub fn put_low(room: &mut [u8], at: usize, w: usize, a: Lows, x: usize) -> Lows
    requires { (a.have < 64) × (w ≤ 32) × (a.acc < 2 ^ a.have)
        × (at + 8 * (a.words + (a.have + w) / 64) ≤ length room.old) }
    ensures { Lower w at a x result room.old room.new }
{
    let low = (x as u64) & ((1u64 << w) - 1);
    let p = fields::place(a.acc, a.have, w, low);
    if a.have + w < 64 {
        return Lows {
            acc: p.lo,
            have: a.have + w,
            words: a.words,
        };
    }
    numbers::write_u64(room, at + 8 * a.words, p.lo);
    Lows {
        acc: p.hi,
        have: a.have + w - 64,
        words: a.words + 1,
    }
}
