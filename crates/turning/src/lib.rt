// A word of a phrase turned to a page: reading of its lists goes on to what the page has, and never back. Where reading
// of the words stands is kept in a row of eight numbers for each.
#![tactic(auto)]

ghost use Rattle.std.specs.Prelude.{◌≡◌, ◌+◌, ◌*◌, ◌≤◌, ◌<◌, length};
ghost use Rattle.querylaws.specs.Lists.{number_of, part_at};
ghost use Rattle.turning.specs.Words.{elements_at, walk_at, with_walk, position_walk, ranks_of};
ghost use Rattle.turning.specs.Words.{BlockAt, Readable, Walked, TurnedOn};

use bytetable::Table;
use span::Walk;

// ---- a word's list

// Of the eight numbers of a word, the first three say where reading of its counts stands, three where that of its
// positions does, and two are the base and the end of its positions on the page.
pub const POSITIONS: usize = 3;

pub const BASE: usize = 6;

pub const END: usize = 7;

// Where reading of a list stands, by three numbers.
pub fn walk_at(words: &[usize], at: usize) -> Walk
    requires { (length words.now ≡ 64) × (at < 62) }
    ensures { result ≡ walk_at words.now at }
{
    Walk {
        next: words[at],
        past: words[at + 1],
        place: words[at + 2],
    }
}

// Puts them.
pub fn put_walk(words: &mut [usize], at: usize, w: Walk)
    requires { (length words.old ≡ 64) × (at < 62) }
    ensures { words.new ≡ with_walk words.old at w }
{
    words[at] = w.next;
    words[at + 1] = w.past;
    words[at + 2] = w.place;
}

// The bytes of list i.
pub fn part_at<'a>(card: &'a [u8], shapes: &[u32], i: usize) -> &'a [u8]
    requires { BlockAt card.now shapes.now i }
    ensures { result.now ≡ part_at card.now shapes.now i }
{
    let from = rows::number(shapes, i, querylaws::FROM);
    let to = rows::number(shapes, i, querylaws::TO);
    &card[from..to]
}

// ---- a word's page

// The numbers of a page's positions among a word's: from `from` on and below `to`.
#[derive(Clone, Copy)]
pub struct Ranks {
    pub from: usize,
    pub to: usize,
}

// Those of word i's page number `rank`, by the counts before it and with it.
pub fn ranks_at(
    table: &Table,
    card: &[u8],
    counts: &[u32],
    i: usize,
    rank: usize,
    words: &mut [usize],
) -> Ranks
    requires { Readable card.now counts.now words.old i (8 * i) × ((walk_at words.old (8 * i)).next ≤ rank)
        × (rank < number_of counts.now i 7) }
    ensures { (result ≡ ranks_of (elements_at card.now counts.now i) rank)
        × Walked card.now counts.now words.old i (8 * i) (rank + 1)
        words.new }
{
    let block = part_at(card, counts, i);
    let g = rows::shape_in(counts, i);
    let w = span::pass_to(table, block, g, walk_at(words, 8 * i), rank);
    let v = span::pass_one(block, g, w);
    put_walk(words, 8 * i, v);
    Ranks {
        from: w.past,
        to: v.past,
    }
}

// Turns word i to the page of those positions: puts its span, and stands before them.
pub fn turn_to(table: &Table, card: &[u8], shapes: &[u32], i: usize, x: Ranks, words: &mut [usize])
    requires { Readable card.now shapes.now words.old i (8 * i + 3)
        × ((position_walk words.old i).next ≤ x.from) × (x.from ≤ number_of shapes.now i 7) }
    ensures { TurnedOn card.now shapes.now words.old i x
        words.new }
{
    let w = walk_at(words, 8 * i + POSITIONS);
    let v = span::pass_to(
        table,
        part_at(card, shapes, i),
        rows::shape_in(shapes, i),
        w,
        x.from,
    );
    put_walk(words, 8 * i + POSITIONS, v);
    words[8 * i + BASE] = v.past;
    words[8 * i + END] = x.to;
}
