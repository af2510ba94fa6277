// The last of a block's stored numbers before an element, found near the rank's share. Number i tells how many ones the
// run has before the place that it leads to, and counts `zeros` for each i as well: 256 as a pointer, 0 in a bitmap.
#![tactic(auto)]

ghost use Rattle.std.specs.Prelude.{◌≡◌, ◌+◌, ◌*◌, ◌≤◌, leb, length};
ghost use Rattle.rules.specs.ReadList.{form_at};
ghost use Rattle.readlaws.specs.Open.{pointers_in, number_at, zeros_per, HighEnd, Among, LastBefore, Comparable, Sought};

use rules::{LIST_HEADER, MAP_VERSION, POINTER_SIZE, VERSION_AT};
use shape::Shape;

// How many zeros the numbers of the block count for each i.
pub fn zeros_per(block: &[u8]) -> usize
    requires { 13 ≤ length block.now }
    ensures { result ≡ zeros_per (form_at block.now) }
{
    if block[VERSION_AT] == MAP_VERSION {
        return 0;
    }
    256
}

// Which number is the last.
pub fn last_number(g: Shape) -> usize
    requires { 13 ≤ g.lower }
    ensures { result ≡ pointers_in g }
{
    (g.lower - LIST_HEADER) / POINTER_SIZE
}

// Whether number i has at most `rank` ones before it.
fn precedes(block: &[u8], i: usize, zeros: usize, rank: usize) -> bool
    requires { Comparable block.now i zeros rank }
    ensures { result ≡ leb (number_at block.now i) (zeros * i + rank) }
{
    reading::number_in(block, i) <= zeros * i + rank
}

// A number with at most `rank` ones before it, at the guess or below it, found in steps that double.
fn low_near(block: &[u8], guess: usize, zeros: usize, rank: usize) -> usize
    requires { Comparable block.now guess zeros rank }
    ensures { (result ≤ guess) × (number_at block.now result ≤ zeros * result + rank) }
{
    let mut i = guess;
    let mut step = 1;
    while !precedes(block, i, zeros, rank) {
        if i <= step {
            return 0;
        }
        i -= step;
        step *= 2;
    }
    i
}

// A number such that the next has more ones before it, or the last: at the guess or above it, found in the same way.
fn high_near(block: &[u8], last: usize, guess: usize, zeros: usize, rank: usize) -> usize
    requires { Comparable block.now last zeros rank × (guess ≤ last) }
    ensures { (guess ≤ result) × HighEnd block.now last zeros rank result }
{
    let mut i = guess + 1;
    let mut step = 1;
    while i <= last {
        if !precedes(block, i, zeros, rank) {
            return i - 1;
        }
        i += step;
        step *= 2;
    }
    last
}

// Numbers from `low` to `high`, both ends included, which a range of the library does not tell.
#[derive(Clone, Copy)]
struct Range {
    low: usize,
    high: usize,
}

// Numbers among which the last with at most `rank` ones before it is: some from that rank's share up, or some below it.
fn narrowed(block: &[u8], last: usize, n: usize, zeros: usize, rank: usize) -> Range
    requires { Sought block.now last n zeros rank }
    ensures { Among block.now last zeros rank result.low result.high }
{
    let guess = rank * last / n;
    if precedes(block, guess, zeros, rank) {
        let high = high_near(block, last, guess, zeros, rank);
        return Range { low: guess, high };
    }
    let high = guess - 1;
    let low = low_near(block, high, zeros, rank);
    Range { low, high }
}

// The last number with at most `rank` ones before it, found by halving.
pub fn number_before(block: &[u8], last: usize, n: usize, zeros: usize, rank: usize) -> usize
    requires { Sought block.now last n zeros rank }
    ensures { LastBefore block.now last zeros rank result }
{
    let near = narrowed(block, last, n, zeros, rank);
    let mut low = near.low;
    let mut high = near.high;
    while low < high {
        let mid = high - (high - low) / 2;
        if precedes(block, mid, zeros, rank) {
            low = mid;
        } else {
            high = mid - 1;
        }
    }
    low
}
