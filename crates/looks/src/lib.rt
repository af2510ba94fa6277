// Words of a run handed out, each for one look, and the walks from word to word: of an upper run, or of a bitmap.
#![tactic(auto)]

ghost use Rattle.std.specs.Prelude.{◌≡◌, ◌+◌, ◌-◌, ◌*◌, ◌/◌, ◌^◌, ◌≤◌, ◌<◌, length};
ghost use Rattle.rules.specs.Runs.{run_word, words_for};
ghost use Rattle.walklaws.specs.Walks.{RunIn, Paid, Walking, AtOne};

use shape::Shape;
use walklaws::Ones;

// Hands out word k of the run, and adds one look to the count that it is lent: a seek has the run's words from here
// alone.
pub fn look(s: &[u8], upper: usize, k: usize, looks: &mut u32) -> u64
    requires { (upper + 8 * k + 8 ≤ length s.now) × (looks.old < 2 ^ 32 - 1) }
    ensures { (result ≡ run_word s.now upper k) × (looks.new ≡ looks.old + 1) }
{
    *looks += 1;
    runs::run_word(s, upper, k)
}

// Goes on from word k to the next, before which the run has `rank` ones.
pub fn next_word(s: &[u8], g: Shape, k: usize, rank: usize, looks: &mut u32) -> Ones
    requires { RunIn s.now g × (k + 1 < words_for g.bits) × (looks.old ≤ 2 ^ 31 + k) }
    ensures { (result.left ≡ run_word s.now g.upper (k + 1)) × (result.k ≡ k + 1) × (result.rank ≡ rank)
        × (looks.new ≡ looks.old + 1) }
{
    let next = k + 1;
    Ones {
        left: look(s, g.upper, next, looks),
        k: next,
        rank,
    }
}

// Passes words with no one left; there is one ahead.
pub fn to_one(s: &[u8], g: Shape, from: Ones, looks: &mut u32) -> Ones
    requires { RunIn s.now g × Walking s.now g from × (from.rank < g.n) × (looks.old ≤ 2 ^ 31 + from.k) }
    ensures { AtOne s.now g from result
        × Paid from.k looks.old result.k looks.new }
{
    let mut at = from;
    while at.left == 0 {
        at = next_word(s, g, at.k, at.rank, looks);
    }
    at
}

// Passes all words up to the run's last.
pub fn to_end(s: &[u8], g: Shape, from: usize, looks: &mut u32)
    requires { RunIn s.now g × (from < words_for g.bits) × (looks.old ≤ 2 ^ 31 + from) }
    ensures { Paid (from + 1) looks.old (words_for g.bits) looks.new }
{
    let last = (g.bits + 63) / 64 - 1;
    for k in from..last {
        next_word(s, g, k, 0, looks);
    }
}
