// The last element of a block, and the first one of its upper run from a place on.
#![tactic(auto)]

ghost use Rattle.std.specs.Prelude.{◌≡◌, ◌-◌, ◌<◌, get_or};
ghost use Rattle.rules.specs.Counts.{ones_below};
ghost use Rattle.rules.specs.ReadList.{decode};
ghost use Rattle.readlaws.specs.Open.{Open};
ghost use Rattle.readlaws.specs.Open.{OneAt, SomeOne, LastOne};

use shape::Shape;

// The place of the last one of a run, which has one.
fn last_one(run: &[u8]) -> usize
    requires { SomeOne run.now }
    ensures { LastOne run.now result }
{
    let mut k = run.len() / 8 - 1;
    let mut x = runs::run_word(run, 0, k);
    // There is a word with a one, and so no end that a `for` over the words could come to.
    while x == 0 {
        k -= 1;
        x = runs::run_word(run, 0, k);
    }
    64 * k + (63 - u64::leading_zeros(x)) as usize
}

// The last element of a block that has one, found without a search: its one is the last of the upper run.
pub fn last_of(block: &[u8], g: Shape) -> usize
    requires { Open block.now g × (0 < g.n) }
    ensures { result ≡ get_or (decode block.now) (g.n - 1) 0 }
{
    let place = last_one(reading::upper_of(block, g));
    let rank = g.n - 1;
    reading::value_at(block, g, place, rank)
}

// The place of the first one of the upper run at or after `start`.
pub fn place_after(block: &[u8], g: Shape, start: usize) -> usize
    requires { Open block.now g × (ones_below block.now g.upper start < g.n) }
    ensures { OneAt block.now g.upper (ones_below block.now g.upper start) result }
{
    let mut k = start / 64;
    let mut left = fields::from_bit(runs::run_word(block, g.upper, k), start % 64);
    // As in `last_one`, there is a word with a one.
    while left == 0 {
        k += 1;
        left = runs::run_word(block, g.upper, k);
    }
    64 * k + u64::trailing_zeros(left) as usize
}
