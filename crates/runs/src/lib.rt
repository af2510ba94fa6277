// Runs of bits in bytes: their words, the ones of several, and fields that may lie over two.
#![tactic(auto)]

ghost use Rattle.std.specs.Prelude.{◌≡◌, ◌+◌, ◌*◌, ◌/◌, ◌%◌, ◌^◌, ◌<◌, ◌≤◌, length};
ghost use Rattle.rules.specs.Runs.{run_word, field, words_for};
ghost use Rattle.rules.specs.Counts.{ones_below};

// Word k of the run that starts at byte `at`.
pub fn run_word(s: &[u8], at: usize, k: usize) -> u64
    requires { at + 8 * k + 8 ≤ length s.now }
    ensures { result ≡ run_word s.now at k }
{
    numbers::read_u64(s, at + 8 * k)
}

// How many ones the words of a run from number `from` up to number `to` have.
pub fn ones_of(s: &[u8], at: usize, from: usize, to: usize) -> usize
    requires { (from ≤ to) × (to ≤ 2 ^ 32) × (at + 8 * to ≤ length s.now) }
    ensures { ones_below s.now at (64 * from) + result ≡ ones_below s.now at (64 * to) }
{
    let mut i = 0;
    for k in from..to {
        i += u64::count_ones(run_word(s, at, k)) as usize;
    }
    i
}

// The w bits of a run from its bit o on.
pub fn low_field(run: &[u8], o: usize, w: usize) -> u64
    requires { (8 * words_for (o + w) ≤ length run.now) × (w ≤ 32) }
    ensures { result ≡ field run.now 0 o w }
{
    if w == 0 {
        return 0;
    }
    let k = o / 64;
    let b = o % 64;
    let lo = run_word(run, 0, k);
    if b + w <= 64 {
        return fields::field_of(lo, 0, b, w);
    }
    fields::field_of(lo, run_word(run, 0, k + 1), b, w)
}
