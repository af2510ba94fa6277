// A list gone through by rank: from where reading stands, elements are passed up to a number.
#![tactic(auto)]

ghost use Rattle.std.specs.Prelude.{◌+◌, ◌≤◌, ◌<◌};
ghost use Rattle.readlaws.specs.Open.{Open, OneAt};
ghost use Rattle.span.specs.Walks.{WalkOn, PassedTo};

use bytetable::Table;
use shape::Shape;

// Where reading stands: how many elements are passed, one past the last of them, and the place behind its one.
#[derive(Clone, Copy)]
pub struct Walk {
    pub next: usize,
    pub past: usize,
    pub place: usize,
}

// Reading that has passed element number `rank`, whose one stands at `place`.
pub fn walk_past(block: &[u8], g: Shape, place: usize, rank: usize) -> Walk
    requires { Open block.now g × OneAt block.now g.upper rank place }
    ensures { PassedTo block.now g (rank + 1) result }
{
    Walk {
        next: rank + 1,
        past: reading::value_at(block, g, place, rank) + 1,
        place: place + 1,
    }
}

// Passes elements until n are passed.
pub fn pass_to(table: &Table, block: &[u8], g: Shape, w: Walk, n: usize) -> Walk
    requires { WalkOn block.now g w × (w.next ≤ n) × (n ≤ g.n) }
    ensures { PassedTo block.now g n result }
{
    if n == w.next {
        return w;
    }
    let place = byrank::place_near(table, block, g, w.place, w.next, n - 1);
    walk_past(block, g, place, n - 1)
}

// Passes the next element.
pub fn pass_one(block: &[u8], g: Shape, w: Walk) -> Walk
    requires { WalkOn block.now g w × (w.next < g.n) }
    ensures { PassedTo block.now g (w.next + 1) result }
{
    let place = nearones::place_after(block, g, w.place);
    walk_past(block, g, place, w.next)
}
