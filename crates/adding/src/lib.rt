// Elements laid into a block in place, each run's words through the part that starts at the run; so are those of a
// bitmap, each of which is its own place [02 f].
#![tactic(auto)]

ghost use Rattle.std.specs.Prelude.{true, ◌≡◌, ◌+◌, ◌/◌, ◌%◌, ◌≤◌, length, get_or};
ghost use Rattle.rules.specs.List.{rising};
ghost use Rattle.rules.specs.InPlace.{added};
ghost use Rattle.filllaws.specs.Filling.{Fitting};
ghost use Rattle.addlaws.specs.Adding.{HasSlot, OneAdded, HasSlots, AllAdded, HasMap, MapAdded, HasPlace, PageAdded, Paged, PagesAdded};

use addlaws::Highs;
use filllaws::Lows;
use shape::{BITMAP, Shape};

// The lower run in hand where the next low part is laid at this place.
fn nothing_laid(place: usize) -> Lows
    ensures { result ≡ record { acc = 0; have = place % 64; words = place / 64 } }
{
    Lows {
        acc: 0,
        have: place % 64,
        words: place / 64,
    }
}

// Lays the elements that the list gives above the base into a block in which those below number `from` are laid, where
// the runs start at these bytes and low parts have w bits: a shape would be put down in memory for each call.
pub fn add_above(
    block: &mut [u8],
    lower: usize,
    upper: usize,
    w: usize,
    from: usize,
    base: usize,
    list: &[u32],
)
    requires { HasSlots lower upper w from base list.now block.old }
    ensures { AllAdded lower upper w from base list.now block.old block.new }
{
    let mut lows = nothing_laid(from * w);
    let mut highs = Highs { acc: 0, word: 0 };
    for (i, &x) in list.iter().enumerate() {
        let x = base + x as usize;
        highs = setting::add_high(&mut block[upper..], highs, (x >> w) + (from + i));
        lows = setting::add_low(&mut block[lower..], w, lows, x);
    }
    setting::flush(&mut block[upper..], highs.word, highs.acc);
    setting::flush(&mut block[lower..], lows.words, lows.acc);
}

// Lays the elements of the list from number `from` on into a block of that shape, for those who have it at hand.
pub fn add_all(block: &mut [u8], g: Shape, from: usize, list: &[u32])
    requires { Fitting g block.old × (from + length list.now ≤ g.n) × (rising 0 g.u list.now ≡ true) }
    ensures { block.new ≡ added g.u g.n from list.now block.old }
{
    add_above(block, g.lower, g.upper, g.w, from, 0, list);
}

// Lays x as element number i, where the runs start at these bytes and low parts have w bits: for one element a list and
// a loop over it, as in `add_above`, would take longer.
pub fn add_one(block: &mut [u8], lower: usize, upper: usize, w: usize, i: usize, x: usize)
    requires { HasSlot lower upper w i x block.old }
    ensures { OneAdded lower upper w i x block.old block.new }
{
    let none = nothing_laid(i * w);
    let highs = setting::add_high(&mut block[upper..], Highs { acc: 0, word: 0 }, (x >> w) + i);
    let rest = setting::add_low(&mut block[lower..], w, none, x);
    setting::flush(&mut block[upper..], highs.word, highs.acc);
    setting::flush(&mut block[lower..], rest.words, rest.acc);
}

// Lays the elements of the list into the bitmap that starts at byte `at`.
fn add_map(block: &mut [u8], at: usize, list: &[u32])
    requires { HasMap at list.now block.old }
    ensures { MapAdded at list.now block.old block.new }
{
    let mut highs = Highs { acc: 0, word: 0 };
    for &x in list {
        highs = setting::add_high(&mut block[at..], highs, x as usize);
    }
    setting::flush(&mut block[at..], highs.word, highs.acc);
}

// Lays the one page of the list as element number i, where the runs of a block in either form start at these bytes:
// `add_pages` of one page would take its shape, and lay it by a loop.
pub fn add_page(block: &mut [u8], lower: usize, upper: usize, w: usize, i: usize, list: &[u32])
    requires { (length list.now ≡ 1) × HasPlace lower upper w i (get_or list.now 0 0) block.old }
    ensures { PageAdded lower upper w i (get_or list.now 0 0) block.old
        block.new }
{
    if w == BITMAP {
        add_map(block, upper, list);
    } else {
        add_one(block, lower, upper, w, i, list[0] as usize);
    }
}

// Lays the pages of the list from number `from` on into a block in either form.
pub fn add_pages(block: &mut [u8], g: Shape, from: usize, list: &[u32])
    requires { Paged g from list.now block.old }
    ensures { PagesAdded g from list.now block.old block.new }
{
    if g.w == BITMAP {
        add_map(block, g.upper, list);
    } else {
        add_all(block, g, from, list);
    }
}
