// Ones set in a run of words, one word at a time: nothing that stands in the run is cleared.
#![tactic(auto)]

ghost use Rattle.std.specs.Prelude.{◌≡◌, ◌+◌, ◌*◌, ◌/◌, ◌^◌, ◌<◌, ◌≤◌, length};
ghost use Rattle.rules.specs.InPlace.{from, with_ones};
ghost use Rattle.addlaws.specs.Adding.{used, LowOne, HighOne};

use addlaws::Highs;
use filllaws::Lows;

// Sets the ones of `bits` in word k of the run.
fn set_ones(run: &mut [u8], k: usize, bits: u64)
    requires { 8 * k + 8 ≤ length run.old }
    ensures { run.new ≡ from (8 * k) (with_ones 1 bits) run.old }
{
    let held = numbers::read_u64(run, 8 * k);
    let word = held | bits;
    if word != held {
        numbers::write_u64(run, 8 * k, word);
    }
}

// The same where there are any.
pub fn flush(run: &mut [u8], k: usize, bits: u64)
    requires { 8 * (k + used bits) ≤ length run.old }
    ensures { run.new ≡ from (8 * k) (with_ones (used bits) bits) run.old }
{
    if bits != 0 {
        set_ones(run, k, bits);
    }
}

// Lays the w low bits of x above those in hand, and sets the ones of a word that is full.
pub fn add_low(run: &mut [u8], w: usize, a: Lows, x: usize) -> Lows
    requires { (a.have < 64) × (w ≤ 32) × (a.acc < 2 ^ a.have)
        × (8 * (a.words + (a.have + w) / 64) ≤ length run.old) }
    ensures { LowOne w a x result run.old run.new }
{
    let low = (x as u64) & ((1u64 << w) - 1);
    if a.have + w < 64 {
        return Lows {
            acc: a.acc | (low << a.have),
            have: a.have + w,
            words: a.words,
        };
    }
    let p = fields::place(a.acc, a.have, w, low);
    set_ones(run, a.words, p.lo);
    Lows {
        acc: p.hi,
        have: a.have + w - 64,
        words: a.words + 1,
    }
}

// Takes the one at `place` in hand, and sets those of the word before it where it lies in another.
pub fn add_high(run: &mut [u8], a: Highs, place: usize) -> Highs
    requires { 8 * (a.word + used a.acc) ≤ length run.old }
    ensures { HighOne a place result run.old run.new }
{
    let word = place / 64;
    let one = 1u64 << (place % 64);
    if word == a.word {
        return Highs {
            acc: a.acc | one,
            word,
        };
    }
    flush(run, a.word, a.acc);
    Highs { acc: one, word }
}
