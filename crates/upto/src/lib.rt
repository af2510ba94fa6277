// Elements of a list passed from one to one, up to a bound.
#![tactic(auto)]

ghost use Rattle.std.specs.Prelude.{◌≤◌, ◌<◌};
ghost use Rattle.readlaws.specs.Open.{Open};
ghost use Rattle.span.specs.Walks.{WalkOn};
ghost use Rattle.upto.specs.Bounds.{Passing, OnesLeft, PassedBelow};

use shape::Shape;
use span::Walk;
use walklaws::Ones;

// The ones of the word where reading stands that lie ahead.
fn ones_ahead(block: &[u8], g: Shape, w: Walk) -> Ones
    requires { WalkOn block.now g w × (w.next < g.n) }
    ensures { OnesLeft block.now g w.next result }
{
    let k = w.place / 64;
    let f = w.place % 64;
    Ones {
        left: fields::from_bit(runs::run_word(block, g.upper, k), f),
        k,
        rank: w.next,
    }
}

// Passes words with no one left. It is the walk of `looks::to_one` without looks: one function of both would take what
// hands out a word as a closure, and promise what that counts.
fn skip_empty(block: &[u8], g: Shape, from: Ones) -> Ones
    requires { Open block.now g × OnesLeft block.now g from.rank from × (from.rank < g.n) }
    ensures { OnesLeft block.now g from.rank result × (0 < result.left) }
{
    let mut at = from;
    while at.left == 0 {
        let k = at.k + 1;
        let next = Ones {
            left: runs::run_word(block, g.upper, k),
            k,
            rank: at.rank,
        };
        at = next;
    }
    at
}

// Passes elements up to the first that is at least b, or all below number `to`; the word that is read stays at hand.
pub fn pass_below(block: &[u8], g: Shape, w: Walk, to: usize, b: usize) -> Walk
    requires { Passing block.now g to b w × (to ≤ g.n) }
    ensures { PassedBelow block.now g to b w result }
{
    if to <= w.next {
        return w;
    }
    let mut at = w;
    let mut ones = ones_ahead(block, g, w);
    while at.next < to && at.past <= b {
        let one = skip_empty(block, g, ones);
        let place = 64 * one.k + u64::trailing_zeros(one.left) as usize;
        let next = span::walk_past(block, g, place, one.rank);
        let rest = Ones {
            left: one.left & (one.left - 1),
            k: one.k,
            rank: one.rank + 1,
        };
        ones = rest;
        at = next;
    }
    at
}
