// A word of a phrase on one page: its positions there, gone through from bound to bound and never back.
#![tactic(auto)]

ghost use Rattle.std.specs.Prelude.{◌+◌, ◌^◌, ◌<◌};
ghost use Rattle.turning.specs.Words.{base_in, BlockAt};
ghost use Rattle.phrase.specs.Pages.{Ready, PassedOn, Sought};

use turning::{BASE, END, POSITIONS};

// Passes word i's elements up to the first at least b; whether the page has one.
fn pass_on(card: &[u8], shapes: &[u32], i: usize, b: usize, words: &mut [usize]) -> bool
    requires { BlockAt card.now shapes.now i × Ready card.now shapes.now words.old i b }
    ensures { PassedOn card.now shapes.now words.old i b result
        words.new }
{
    let w = turning::walk_at(words, 8 * i + POSITIONS);
    if b < w.past {
        return true;
    }
    let v = upto::pass_below(
        turning::part_at(card, shapes, i),
        rows::shape_in(shapes, i),
        w,
        words[8 * i + END],
        b,
    );
    turning::put_walk(words, 8 * i + POSITIONS, v);
    b < v.past
}

// The first position of word i on the page that is at least b, if it has one.
pub fn position_from(
    card: &[u8],
    shapes: &[u32],
    i: usize,
    b: usize,
    words: &mut [usize],
) -> Option<usize>
    requires { BlockAt card.now shapes.now i × (base_in words.old i < 2 ^ 32) × (b < 2 ^ 33)
        × Ready card.now shapes.now words.old i (base_in words.old i + b) }
    ensures { Sought card.now shapes.now words.old i b result
        words.new }
{
    let base = words[8 * i + BASE];
    if !pass_on(card, shapes, i, base + b, words) {
        return None;
    }
    Some(words[8 * i + POSITIONS + 1] - 1 - base)
}
