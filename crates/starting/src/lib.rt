// Where a seek starts on a list in two runs: at the cursor's bit, or at a pointer ahead of it.
#![tactic(auto)]

ghost use Rattle.std.specs.Prelude.{◌≡◌, ◌+◌, ◌-◌, ◌*◌, ◌/◌, ◌^◌, ◌<◌};
ghost use Rattle.rules.specs.List.{two_runs};
ghost use Rattle.readlaws.specs.Open.{Open};
ghost use Rattle.walklaws.specs.Cursors.{Moving, start_in};
ghost use Rattle.walklaws.specs.Walks.{Started};

use shape::Shape;
use walklaws::{Cursor, StartPlace};

// The high part of the element that the cursor is on; 0 if fresh.
pub fn high_of(g: Shape, c: Cursor) -> usize
    requires { g.w < 64 }
    ensures { result ≡ (c.mark - 1) / 2 ^ g.w }
{
    let page = c.mark - (c.mark != 0) as u32;
    page as usize >> g.w
}

// The larger of the cursor's bit and pointer h / 256: the pointer lies ahead just where the cursor's high part is of an
// earlier 256, and is read there alone.
pub fn start(s: &[u8], g: Shape, c: Cursor, b: usize) -> StartPlace
    requires { Open s.now g × Moving two_runs s.now c b }
    ensures { Started s.now g b result × (result.bit ≡ start_in two_runs s.now c b) }
{
    let high = high_of(g, c);
    let h = b >> g.w;
    if high / 256 * 256 + 255 < h {
        let i = h / 256;
        return StartPlace {
            bit: reading::pointer_at(s, g, i),
            zeros: 256 * i,
            own: 0,
        };
    }
    StartPlace {
        bit: c.bit as usize,
        zeros: high,
        own: (c.mark != 0) as u32,
    }
}
