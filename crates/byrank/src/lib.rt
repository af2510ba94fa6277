// Elements by rank, found without reading those before them.
#![tactic(auto)]

ghost use Rattle.std.specs.Prelude.{◌≡◌, ◌*◌, ◌/◌, ◌^◌, ◌≤◌, ◌<◌, length, get_or};
ghost use Rattle.rules.specs.Counts.{ones_below};
ghost use Rattle.rules.specs.ReadList.{form_at, decode};
ghost use Rattle.readlaws.specs.Open.{Open, FormOpen, zeros_per, jump_from, Sought, JumpsIn, OneAt, OneAhead};

use bytetable::Table;
use shape::{BITMAP, Shape};

// The place of the one number `rank` of a run, of whose ones `before` lie below place `start`.
fn one_past(table: &Table, run: &[u8], start: usize, before: usize, rank: usize) -> usize
    requires { OneAhead run.now start before rank }
    ensures { OneAt run.now 0 rank result × (result < 64 * (length run.now / 8)) }
{
    let mut k = start / 64;
    let mut left = (rank - before) as u64;
    let mut x = fields::from_bit(runs::run_word(run, 0, k), start % 64);
    let mut counts = selection::running_counts(x);
    while selection::total(counts) <= left {
        left -= selection::total(counts);
        k += 1;
        x = runs::run_word(run, 0, k);
        counts = selection::running_counts(x);
    }
    64 * k + selection::select_by(table, x, counts, left as u32) as usize
}

// The place of the run that number i, stored as v, leads to.
fn led_to(zeros: usize, v: usize, i: usize) -> usize
    requires { i ≤ 2 ^ 16 }
    ensures { result ≡ jump_from zeros v i }
{
    if zeros == 0 {
        return 256 * i;
    }
    v
}

// The place in the block's run of the one number `rank`, from the last number stored before it, or from the run's start
// where none is stored. It takes the three numbers of the shape that it needs, and not the shape, so that a call has all
// in registers.
fn place_of(table: &Table, block: &[u8], last: usize, n: usize, upper: usize, rank: usize) -> usize
    requires { Sought block.now last n (zeros_per (form_at block.now)) rank
        × JumpsIn block.now upper n last (zeros_per (form_at block.now)) }
    ensures { OneAt block.now upper rank result }
{
    let end = block.len();
    if last == 0 {
        return one_past(table, &block[upper..end], 0, 0, rank);
    }
    let zeros = pointers::zeros_per(block);
    let i = pointers::number_before(block, last, n, zeros, rank);
    let v = reading::number_in(block, i);
    let start = led_to(zeros, v, i);
    one_past(table, &block[upper..end], start, v - zeros * i, rank)
}

// Element number `rank`, found without reading the elements before it.
pub fn element_at(table: &Table, block: &[u8], g: Shape, rank: usize) -> usize
    requires { FormOpen (form_at block.now) block.now g × (rank < g.n) }
    ensures { result ≡ get_or (decode block.now) rank 0 }
{
    let found = place_of(table, block, pointers::last_number(g), g.n, g.upper, rank);
    if g.w == BITMAP {
        return found;
    }
    reading::value_at(block, g, found, rank)
}

// The place of that one in the upper run, from `start` on, below which `before` ones lie; from a pointer where that is
// far.
pub fn place_near(
    table: &Table,
    block: &[u8],
    g: Shape,
    start: usize,
    before: usize,
    rank: usize,
) -> usize
    requires { Open block.now g × (rank < g.n) × (ones_below block.now g.upper start ≡ before)
        × (before ≤ rank) }
    ensures { OneAt block.now g.upper rank result }
{
    if before + 256 < rank {
        return place_of(table, block, pointers::last_number(g), g.n, g.upper, rank);
    }
    one_past(table, reading::upper_of(block, g), start, before, rank)
}
