// What the check of a list block asks of one part: spare bits, the next low part, a pointer.
#![tactic(auto)]

ghost use Rattle.std.specs.Prelude.{◌≡◌, false, ◌+◌, ◌*◌, ◌/◌, ◌^◌, ◌<◌, ◌≤◌, length, IfSome, IfNone};
ghost use Rattle.std.specs.Int.Count.{ones};
ghost use Rattle.rules.specs.Bytes.{be_at};
ghost use Rattle.rules.specs.Runs.{words_for};
ghost use Rattle.checklaws.specs.Check.{Tells, Tail, Clear, Holds, Pointed, Stands, next_low, Ready};

use checklaws::Low;
use rules::{POINTER_SIZE, POINTER_ZERO_AT};
use shape::Shape;

// Whether the run's bits from number `from` on are 0, in the word of that bit.
pub fn tail_clear(s: &[u8], at: usize, from: usize) -> bool
    requires { at + 8 * (from / 64) + 8 ≤ length s.now }
    ensures { Tells result (Tail s.now at from) }
{
    runs::run_word(s, at, from / 64) >> (from % 64) == 0
}

// Whether the run's bits from number `size` on, which are in its last word, are 0.
pub fn spare_clear(s: &[u8], at: usize, size: usize) -> bool
    requires { at + 8 * words_for size ≤ length s.now }
    ensures { Tells result (Clear s.now at size) }
{
    if size % 64 == 0 {
        return true;
    }
    tail_clear(s, at, size)
}

// Takes the next low part off what is left of the word read last, and off a new word once that is too little.
pub fn next_low(s: &[u8], low: Low, w: usize) -> Low
    requires held_fits { (low.held < 64) × (low.left < 2 ^ low.held) × (w ≤ 32) }
    requires has_word { low.held < w → low.at + 8 ≤ length s.now }
    ensures { result ≡ next_low s.now w low }
{
    let left = low.left;
    let held = low.held;
    let at = low.at;
    let mask = (1u64 << w) - 1;
    if w <= held {
        return Low {
            part: left & mask,
            left: left >> w,
            held: held - w,
            at,
        };
    }
    let next = numbers::read_u64(s, at);
    Low {
        part: (left | (next << held)) & mask,
        left: next >> (w - held),
        held: held + 64 - w,
        at: at + 8,
    }
}

// A high and a low part side by side: such pairs are in order as the elements are.
pub fn paired(high: usize, low: u64) -> u64
    requires { (high < 2 ^ 27) × (low < 2 ^ 32) }
    ensures { result ≡ high * 2 ^ 32 + low }
{
    ((high as u64) << 32) + low
}

// Whether pointer number q stands in the word x, which is at bit `base` of the upper run and has i ones before it.
fn pointer_ok(s: &[u8], q: usize, x: u64, base: usize, i: usize) -> bool
    requires { (13 + 4 * q ≤ length s.now) × (q ≤ 2 ^ 18) × (base ≤ 2 ^ 26) × (i ≤ 2 ^ 26) }
    ensures { Tells result (Stands x base i (256 * q) (be_at 4 s.now (9 + 4 * q))) }
{
    let p = numbers::read_u32(s, POINTER_ZERO_AT + POINTER_SIZE * q) as usize;
    if p <= base {
        return false;
    }
    if base + 64 < p {
        return false;
    }
    let j = p - base;
    if (x >> (j - 1)) % 2 != 0 {
        return false;
    }
    256 * q + i + fields::ones_below(x, j) as usize == p
}

// The number of the next pointer once word k, which is x and has i ones before it, is passed; none where it has more ones
// than there are elements, or the pointer that it decides is wrong.
pub fn next_pointer(s: &[u8], g: Shape, i: usize, next: usize, x: u64, k: usize) -> Option<usize>
    requires { Ready s.now g k i next x }
    ensures goes_on { IfSome result (λ q. (i + ones x ≤ g.n) × Pointed s.now g (64 * (k + 1)) (i + ones x) q) }
    ensures refuses { IfNone result (Holds s.now g → ⊥) }
{
    let through = i + u64::count_ones(x) as usize;
    if g.n < through {
        return None;
    }
    if 64 * k + 64 < 256 * next + through {
        return Some(next);
    }
    if g.lower <= POINTER_ZERO_AT + POINTER_SIZE * next {
        return Some(next);
    }
    if !pointer_ok(s, next, x, 64 * k, i) {
        return None;
    }
    Some(next + 1)
}
