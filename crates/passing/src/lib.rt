// From a seek's start to the zero before the bound's high part, by counts of ones.
#![tactic(auto)]

ghost use Rattle.std.specs.Prelude.{◌≡◌, ◌+◌, ◌-◌, ◌*◌, ◌/◌, ◌^◌, ◌≤◌, ◌<◌};
ghost use Rattle.std.specs.Int.Count.{ones};
ghost use Rattle.selectlaws.specs.ByteCounts.{running_ones};
ghost use Rattle.readlaws.specs.Open.{Open};
ghost use Rattle.walklaws.specs.Walks.{Started, Paid, Skipping, ZeroIn, AtZero, Skipped, Passed};

use bytetable::Table;
use shape::Shape;
use walklaws::{Ones, StartPlace};

// The bits of a word from a place on, or behind it where `own` is 1.
fn behind(x: u64, place: usize, own: u32) -> u64
    requires { (place < 64) × (own ≤ 1) }
    ensures { result ≡ x / 2 ^ (place + own) * 2 ^ (place + own) }
{
    x & ((18446744073709551615 - own as u64) << place)
}

// A number with the ones that are left in a word added.
fn with_ones(x: usize, left: u64) -> usize
    requires { x < 2 ^ 40 }
    ensures { result ≡ x + ones left }
{
    x + u64::count_ones(left) as usize
}

// Goes on to zero number h of the run, counted from 1, which is in what is left of the word, whose counts are given.
fn to_zero(table: &Table, at: Ones, counts: u64, h: usize) -> Ones
    requires { ZeroIn h at × (counts ≡ running_ones 8 0 at.left) }
    ensures { AtZero h at result }
{
    let j = h + at.rank - 64 * at.k - 1;
    let place = selection::select_zero(table, at.left, counts, j as u32) as usize;
    Ones {
        left: fields::from_bit(at.left, place),
        k: at.k,
        rank: at.rank + place - j,
    }
}

// Passes words by their counts of ones to the one with zero number h, and stands there. Among the zeros of what is left
// of a word, with all bits before that, this zero has the number `wanted`. The counts of a word's bytes are taken where
// its ones are counted, since both then are one sum.
fn skip(table: &Table, s: &[u8], g: Shape, h: usize, from: Ones, looks: &mut u32) -> Ones
    requires { Open s.now g × (h + g.n ≤ g.bits) × Skipping s.now g h from × (looks.old ≤ 2 ^ 31 + from.k) }
    ensures { Skipped s.now g h result × Paid from.k looks.old result.k looks.new }
{
    let mut left = from.left;
    let mut k = from.k;
    let mut wanted = h + from.rank - 64 * from.k;
    let mut counts = selection::running_counts(left);
    while 64 < with_ones(wanted, left) {
        let at = looks::next_word(s, g, k, with_ones(wanted, left) - 64, looks);
        left = at.left;
        k = at.k;
        wanted = at.rank;
        counts = selection::running_counts(left);
    }
    let at = Ones {
        left,
        k,
        rank: wanted + 64 * k - h,
    };
    to_zero(table, at, counts, h)
}

// Looks at the word of the start, and passes the cursor's own element, which is below the bound; then passes on to the
// zero before the bound's high part where that is not near.
pub fn pass(table: &Table, s: &[u8], g: Shape, b: usize, from: StartPlace, looks: &mut u32) -> Ones
    requires { Open s.now g × (b < g.u) × Started s.now g b from × (from.bit < g.bits)
        × (looks.old < 2 ^ 31) }
    ensures { Passed s.now g b result
        × Paid (from.bit / 64) (looks.old + 1) result.k looks.new }
{
    let h = b >> g.w;
    let k = from.bit / 64;
    let word = looks::look(s, g.upper, k, looks);
    let at = Ones {
        left: behind(word, from.bit % 64, from.own),
        k,
        rank: from.bit - from.zeros + from.own as usize,
    };
    if h <= from.zeros + 3 {
        return at;
    }
    skip(table, s, g, h, at, looks)
}
