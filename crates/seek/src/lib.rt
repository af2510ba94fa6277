// The seek on a list in either form, with its counts: a cursor moves as the step rule says.
#![tactic(auto)]

ghost use Rattle.std.specs.Prelude.{◌≡◌, ◌+◌, ◌^◌, ◌<◌};
ghost use Rattle.rules.specs.ReadList.{list_u, form_at, decode};
ghost use Rattle.readlaws.specs.Open.{FormOpen};
ghost use Rattle.walklaws.specs.Cursors.{Held, landing, looks_for, found_for, moved_to, found_by};

use bytetable::Table;
use shape::{BITMAP, Shape};
use walklaws::{Cursor, Landing};

// Where a seek for b ends: it stays, is spent with no look, finds its page in a bitmap, or passes and lands.
fn find(
    table: &Table,
    s: &[u8],
    g: Shape,
    c: Cursor,
    b: usize,
    likely: bool,
    looks: &mut u32,
) -> Landing
    requires { FormOpen (form_at s.now) s.now g × Held (form_at s.now) (list_u s.now) (decode s.now) c
        × (looks.old < 2 ^ 31) }
    ensures { (result ≡ landing (form_at s.now) (list_u s.now) (decode s.now) c b)
        × (looks.new ≡ looks.old
        + looks_for (form_at s.now) (list_u s.now) (decode s.now) c b) }
{
    if b < c.mark as usize {
        return Landing {
            mark: c.mark,
            bit: c.bit as usize,
        };
    }
    if g.w == BITMAP {
        if g.u <= b {
            return landing::none();
        }
        return mapseek::find_in_map(s, g, b, likely, looks);
    }
    if g.n == 0 || g.u <= b {
        return landing::none();
    }
    let from = starting::start(s, g, c, b);
    if from.own == 0 && from.bit == g.bits {
        return landing::none();
    }
    let at = passing::pass(table, s, g, b, from, looks);
    landing::land(s, g, b, at, looks)
}

// One seek for b: the cursor moves as the step rule says, and stands for what the rule's seek finds, the page with its
// rank or none with the list's n. This function alone adds one seek, and the count that every look of it adds to is the
// cursor's own. `likely` says that the list may well have b itself; it changes no answer.
pub fn seek(table: &Table, s: &[u8], g: Shape, c: Cursor, b: usize, likely: bool) -> Cursor
    requires { FormOpen (form_at s.now) s.now g × Held (form_at s.now) (list_u s.now) (decode s.now) c
        × (c.seeks < 2 ^ 31) × (c.looks < 2 ^ 31) }
    ensures { (result ≡ moved_to (form_at s.now) (list_u s.now) (decode s.now) c b)
        × (found_by (form_at s.now) (list_u s.now) (decode s.now) result
        ≡ found_for (form_at s.now) (list_u s.now) (decode s.now) c b) }
{
    let mut looks = c.looks;
    let to = find(table, s, g, c, b, likely, &mut looks);
    Cursor {
        mark: to.mark,
        bit: to.bit as u32,
        seeks: c.seeks + 1,
        looks,
    }
}
