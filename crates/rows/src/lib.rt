// A question's lists by their numbers, eight in a row for each, and what their cursors tell: ranks, seeks and looks.
#![tactic(auto)]

ghost use Rattle.std.specs.Prelude.{◌≡◌, ◌+◌, ◌*◌, ◌^◌, ◌≤◌, ◌<◌, length};
ghost use Rattle.querylaws.specs.Lists.{number_of, shape_in};
ghost use Rattle.querylaws.specs.Queries.{seeks_of, looks_of};
ghost use Rattle.querylaws.specs.Ranks.{rank_of, OnElement};

use querylaws::{BITS, BOUND, FROM, LENGTH, LOWER, Listed, Query, TO, UPPER, WIDTH};
use shape::{BITMAP, Shape};

// The number of list i at place j of its row.
pub fn number(shapes: &[u32], i: usize, j: usize) -> usize
    requires { (8 * i + 8 ≤ length shapes.now) × (i < 8) × (j < 8) }
    ensures { result ≡ number_of shapes.now i j }
{
    shapes[8 * i + j] as usize
}

// The shape of list i, by its numbers.
pub fn shape_in(shapes: &[u32], i: usize) -> Shape
    requires { (8 * i + 8 ≤ length shapes.now) × (i < 8) × (number_of shapes.now i 0 ≤ number_of shapes.now i 1) }
    ensures { result ≡ shape_in shapes.now i }
{
    Shape {
        u: number(shapes, i, BOUND),
        n: number(shapes, i, LENGTH),
        w: number(shapes, i, WIDTH),
        bits: number(shapes, i, BITS),
        lower: number(shapes, i, LOWER),
        upper: number(shapes, i, UPPER),
        end: number(shapes, i, TO) - number(shapes, i, FROM),
    }
}

// The rank in list i of the page of a cursor's mark and bit: a bitmap tells it by its numbers, two runs by the zeros
// before that bit.
pub fn rank_in(card: &[u8], shapes: &[u32], i: usize, mark: u32, bit: u32) -> usize
    requires { OnElement card.now shapes.now i mark bit }
    ensures { result ≡ rank_of card.now shapes.now i mark }
{
    let page = mark as usize - 1;
    let w = number(shapes, i, WIDTH);
    if w == BITMAP {
        let from = number(shapes, i, FROM);
        let to = number(shapes, i, TO);
        return maprank::rank_at(&card[from..to], shape_in(shapes, i), page);
    }
    bit as usize - (page >> w)
}

// The seeks and looks of all cursors.
pub fn totals(q: Query, found: usize) -> Listed
    requires { (length q.cursors ≡ 8) × (seeks_of q < 2 ^ 32) × (looks_of q < 2 ^ 32) }
    ensures { (result.found ≡ found) × (result.seeks ≡ seeks_of q) × (result.looks ≡ looks_of q) }
{
    let mut seeks = 0;
    let mut looks = 0;
    for c in &q.cursors {
        seeks += c.seeks;
        looks += c.looks;
    }
    Listed {
        found,
        seeks,
        looks,
    }
}
