// The rank of a page in a bitmap, from the number stored before it and the at most four words between.
#![tactic(auto)]

ghost use Rattle.std.specs.Prelude.{◌≡◌, ◌+◌, ◌*◌, ◌/◌, ◌^◌, ◌≤◌, ◌<◌, length};
ghost use Rattle.rules.specs.Counts.{ones_below};
ghost use Rattle.rules.specs.List.{map_at};
ghost use Rattle.rules.specs.ReadList.{list_u};
ghost use Rattle.readlaws.specs.Open.{MapOpen};

use shape::Shape;

// How many ones a run has from word number `from` up to bit number `to`.
fn ones_between(s: &[u8], at: usize, from: usize, to: usize) -> usize
    requires { (from ≤ to / 64) × (to < 2 ^ 32) × (at + 8 * (to / 64) + 8 ≤ length s.now) }
    ensures { ones_below s.now at (64 * from) + result ≡ ones_below s.now at to }
{
    let last = to / 64;
    let before = runs::ones_of(s, at, from, last);
    before + fields::ones_below(runs::run_word(s, at, last), to % 64) as usize
}

// How many pages of the bitmap are below `page`: those below 256 * i are stored, and the words from there on are few.
pub fn rank_at(s: &[u8], g: Shape, page: usize) -> usize
    requires { MapOpen s.now g × (page < g.u) }
    ensures { result ≡ ones_below s.now (map_at (list_u s.now)) page }
{
    let i = page / 256;
    if i == 0 {
        return ones_between(s, g.upper, 0, page);
    }
    reading::number_in(s, i) + ones_between(s, g.upper, 4 * i, page)
}
