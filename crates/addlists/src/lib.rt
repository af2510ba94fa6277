// The sums of a word's counts and the elements of its positions, laid in place 256 at a time.
#![tactic(auto)]

ghost use Rattle.std.specs.Prelude.{true, ◌≡◌, ◌+◌, ◌≤◌, length};
ghost use Rattle.rules.specs.Term.{total, sums, next, placed, positive, in_order_by_page};
ghost use Rattle.rules.specs.InPlace.{added};
ghost use Rattle.filllaws.specs.Filling.{Fitting};

use shape::Shape;
use wordlaws::Tally;

// Lays the sums of the counts, less 1, from number `from` on, where `before` is the sum of those before them. Its loop is
// that of add_places, as in fillword: one over a trait of both was longer there, and slower.
pub fn add_sums(block: &mut [u8], g: Shape, from: usize, before: usize, counts: &[u32])
    requires { Fitting g block.old × (from + length counts.now ≤ g.n) × (positive counts.now ≡ true)
        × (before + total counts.now ≤ g.u) }
    ensures { block.new
        ≡ added g.u g.n from (sums before counts.now) block.old }
{
    let mut at = Tally {
        done: 0,
        sum: before,
    };
    while at.done < counts.len() {
        let mut part = [0u32; 256];
        let next = stretches::next_sums(&mut part, counts, at);
        let k = next.done - at.done;
        adding::add_all(block, g, from + at.done, &part[0..k]);
        at = next;
    }
}

// Lays the elements that the positions of all pages give, from number `from` on, where `start` is the first page's
// base.
pub fn add_places(
    block: &mut [u8],
    g: Shape,
    from: usize,
    start: usize,
    counts: &[u32],
    positions: &[u32],
)
    requires { Fitting g block.old × (from + length positions.now ≤ g.n)
        × (total counts.now ≡ length positions.now) × (positive counts.now ≡ true)
        × (in_order_by_page counts.now positions.now ≡ true)
        × (next start (placed start counts.now positions.now) ≤ g.u) }
    ensures { block.new
        ≡ added g.u g.n from (placed start counts.now positions.now)
        block.old }
{
    let mut at = stretches::first_spot(counts, start);
    while at.done < positions.len() {
        let mut part = [0u32; 256];
        let next = stretches::next_places(&mut part, counts, positions, at);
        let k = next.done - at.done;
        adding::add_all(block, g, from + at.done, &part[0..k]);
        at = next;
    }
}
