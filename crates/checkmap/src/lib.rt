// The check of a bitmap, a word at a time: its numbers count its ones, they are n in all, and its spare bits are 0.
#![tactic(auto)]

ghost use Rattle.std.specs.Prelude.{◌≡◌, ◌≤◌, length};
ghost use Rattle.rules.specs.Limits.{limit};
ghost use Rattle.shape.specs.Shape.{map_shape};
ghost use Rattle.maplaws.specs.Maps.{MapSound};
ghost use Rattle.checklaws.specs.Check.{Tells};

use rules::{POINTER_SIZE, POINTER_ZERO_AT};
use shape::Shape;

// Whether a bitmap's numbers and bits are those of a valid list.
pub fn map_ok(s: &[u8], g: Shape) -> bool
    requires { (g ≡ map_shape g.u g.n) × (length s.now ≡ g.end) × (g.u ≤ limit) }
    ensures { Tells result (MapSound s.now g.u g.n) }
{
    if !checkparts::spare_clear(s, g.upper, g.bits) {
        return false;
    }
    let full = g.u / 256;
    let mut i = 0;
    for q in 0..full {
        i += runs::ones_of(s, g.upper, 4 * q, 4 * q + 4);
        if numbers::read_u32(s, POINTER_ZERO_AT + POINTER_SIZE * (q + 1)) as usize != i {
            return false;
        }
    }
    i + runs::ones_of(s, g.upper, 4 * full, (g.bits + 63) / 64) == g.n
}
