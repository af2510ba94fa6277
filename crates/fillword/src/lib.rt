// A word's lists of counts and of positions, laid 256 elements at a time.
#![tactic(auto)]

ghost use Rattle.std.specs.Prelude.{◌≡◌};
ghost use Rattle.rules.specs.List.{block};
ghost use Rattle.rules.specs.Write.{laid};
ghost use Rattle.rules.specs.Term.{sums, placed};
ghost use Rattle.wordlaws.specs.Lists.{Sums, Places};

use shape::Shape;
use wordlaws::Tally;

// Writes the block of the sums of the counts, less 1, 256 of them at a time. Only the stretches make its loop another than
// that of fill_places: one loop over a trait of both was longer, and slower.
pub fn fill_sums(room: &mut [u8], g: Shape, counts: &[u32])
    requires { Sums g counts.now room.old }
    ensures { room.new ≡ laid (block g.u (sums 0 counts.now)) room.old }
{
    let mut f = filling::begin(room, g);
    let mut at = Tally { done: 0, sum: 0 };
    while at.done < counts.len() {
        let mut part = [0u32; 256];
        let next = stretches::next_sums(&mut part, counts, at);
        let k = next.done - at.done;
        f = laying::lay(room, g, f, &part[0..k]);
        at = next;
    }
    filling::finish(room, g, f);
}

// Writes the block of the elements that the positions of all pages give, 256 of them at a time.
pub fn fill_places(room: &mut [u8], g: Shape, counts: &[u32], positions: &[u32])
    requires { Places g counts.now positions.now room.old }
    ensures { room.new
        ≡ laid (block g.u (placed 0 counts.now positions.now)) room.old }
{
    let mut f = filling::begin(room, g);
    let mut at = stretches::first_spot(counts, 0);
    while at.done < positions.len() {
        let mut part = [0u32; 256];
        let next = stretches::next_places(&mut part, counts, positions, at);
        let k = next.done - at.done;
        f = laying::lay(room, g, f, &part[0..k]);
        at = next;
    }
    filling::finish(room, g, f);
}
