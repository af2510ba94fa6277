// The check of a list block word by word: its elements climb, and its pointers stand.
#![tactic(auto)]

ghost use Rattle.std.specs.Prelude.{◌≡◌, ◌+◌, ◌<◌, ◌≤◌};
ghost use Rattle.std.specs.Int.Count.{ones};
ghost use Rattle.rules.specs.Runs.{words_for};
ghost use Rattle.checklaws.specs.Check.{Judged, Tells, Laid, Holds, At, Ready, Read, Trimmed};

use checklaws::{Low, Mid};
use shape::Shape;

// Reads the elements of word k, which is x, one after the other, and counts those that are above the one before; nothing is
// answered where one is not. The high part of an element is 64 more in its pair, so that what is added to its place in the
// word is never negative.
fn climb(s: &[u8], g: Shape, m: Mid, x: u64, k: usize) -> Option<Mid>
    requires { Ready s.now g k m.i m.next x × At s.now g k m × (m.i + ones x ≤ g.n) }
    ensures { Judged result (Read s.now g k (m.i + ones x)) (Holds s.now g) }
{
    let mut rest = x;
    let mut lift = 64 * k + 64 - m.i;
    let mut last = m.last;
    let mut rises = 0;
    let mut low = m.low;
    while rest != 0 {
        let high = lift + u64::trailing_zeros(rest) as usize;
        low = checkparts::next_low(s, low, g.w);
        let pair = checkparts::paired(high, low.part);
        if last < pair {
            rises += 1;
        }
        last = pair;
        lift -= 1;
        rest = rest & (rest - 1);
    }
    let i = 64 * k + 64 - lift;
    if m.i + rises != i {
        return None;
    }
    Some(Mid {
        i,
        next: m.next,
        last,
        low,
    })
}

// Passes word k; nothing is answered where something is wrong in it.
fn one_word(s: &[u8], g: Shape, m: Mid, k: usize) -> Option<Mid>
    requires { Laid s.now g × At s.now g k m × (k < words_for g.bits) }
    ensures { Judged result (At s.now g (k + 1)) (Holds s.now g) }
{
    let x = runs::run_word(s, g.upper, k);
    let next = checkparts::next_pointer(s, g, m.i, m.next, x, k)?;
    let read = climb(s, g, m, x, k)?;
    Some(Mid { next, ..read })
}

// Whether the elements of a list rise and its pointers stand.
fn climbing(s: &[u8], g: Shape) -> bool
    requires { Trimmed s.now g }
    ensures { Tells result (Holds s.now g) }
{
    let low = Low {
        part: 0,
        left: 0,
        held: 0,
        at: g.lower,
    };
    let mut m = Mid {
        i: 0,
        next: 1,
        last: 0,
        low,
    };
    let words = (g.bits + 63) / 64;
    for k in 0..words {
        let Some(next) = one_word(s, g, m, k) else {
            return false;
        };
        m = next;
    }
    if m.i != g.n {
        return false;
    }
    let high = (g.u >> g.w) + 64;
    m.last < checkparts::paired(high, fields::field_of(g.u as u64, 0, 0, g.w))
}

// The same of a list without low parts, a word at a time: it rises where no two ones are neighbours.
fn spaced(s: &[u8], g: Shape) -> bool
    requires { Trimmed s.now g × (g.w ≡ 0) }
    ensures { Tells result (Holds s.now g) }
{
    if !checkparts::tail_clear(s, g.upper, g.bits - 1) {
        return false;
    }
    let words = (g.bits + 63) / 64;
    let mut i = 0;
    let mut next = 1;
    let mut carry = 0;
    for k in 0..words {
        let x = runs::run_word(s, g.upper, k);
        let Some(after) = checkparts::next_pointer(s, g, i, next, x, k) else {
            return false;
        };
        next = after;
        if x & ((x << 1) | carry) != 0 {
            return false;
        }
        i += u64::count_ones(x) as usize;
        carry = x >> 63;
    }
    i == g.n
}

// Whether the runs and pointers are those of a valid list.
pub fn runs_ok(s: &[u8], g: Shape) -> bool
    requires { Laid s.now g }
    ensures { Tells result (Holds s.now g) }
{
    if !checkparts::spare_clear(s, g.upper, g.bits) {
        return false;
    }
    if !checkparts::spare_clear(s, g.lower, g.n * g.w) {
        return false;
    }
    if g.w == 0 {
        return spaced(s, g);
    }
    climbing(s, g)
}
