// Common pages of up to eight lists by the step rule: the cursors travel as one query by value, and the lists' numbers
// are lent beside it.
#![tactic(auto)]

ghost use Rattle.std.specs.Prelude.{◌≡◌, ◌<◌, length};
ghost use Rattle.querylaws.specs.Lists.{Lists};
ghost use Rattle.querylaws.specs.Queries.{moved_in, Seekable, Running};
ghost use Rattle.querylaws.specs.Batches.{Batched};
ghost use Rattle.querylaws.specs.Listings.{whole_in, laid_within, Tells};

use bytetable::Table;
use querylaws::{FROM, Listed, Query, TO, Turn};
use walklaws::{Cursor, SPENT};

// The query, and the cursor of it that is in hand.
#[derive(Clone, Copy)]
struct InHand {
    q: Query,
    hand: Cursor,
}

// A seek for b on list i, by the cursor in hand: the query comes back as it was, and the hand moved. Behind the lead b is
// a page of it, and so one that the others may well have.
fn seek_in(table: &Table, card: &[u8], shapes: &[u32], mut s: InHand, i: usize, b: usize) -> InHand
    requires { Seekable card.now shapes.now i s.hand }
    ensures { (result.q ≡ s.q) × (result.hand ≡ moved_in card.now shapes.now i s.hand b) }
{
    let from = rows::number(shapes, i, FROM);
    let to = rows::number(shapes, i, TO);
    let hand = seek::seek(
        table,
        &card[from..to],
        rows::shape_in(shapes, i),
        s.hand,
        b,
        0 < i,
    );
    s.hand = hand;
    s
}

// What the loop gives back.
fn turn_of(q: Query, mark: u32, bit: u32, found: usize) -> Turn
    ensures { result ≡ record { q = q; mark = mark; bit = bit; found = found } }
{
    Turn {
        q,
        mark,
        bit,
        found,
    }
}

// Lists the pages from b0 on that the first k lists share, until the room is full or none is left. It is the one loop
// of seeks, and the query goes by value through each of them.
pub fn batch(
    table: &Table,
    card: &[u8],
    shapes: &[u32],
    q0: Query,
    k: usize,
    b0: usize,
    room: &mut [u32],
) -> Turn
    requires { Running card.now shapes.now k q0 b0 × (0 < length room.old) }
    ensures { Batched card.now shapes.now k q0 b0 room.old result
        room.new }
{
    let mut q = q0;
    let mut b = b0;
    let mut i = 0;
    let mut found = 0;
    loop {
        let hand = q.cursors[i];
        let s = seek_in(table, card, shapes, InHand { q, hand }, i, b);
        let back = s.q;
        q = back;
        let c = s.hand;
        q.cursors[i] = c;
        let mark = c.mark;
        if mark == SPENT {
            return turn_of(q, mark, c.bit, found);
        }
        let page = mark as usize - 1;
        if 0 < i && b < page {
            i = 0;
            b = page;
            continue;
        }
        i += 1;
        b = page;
        if k <= i {
            room[found] = mark - 1;
            found += 1;
            if room.len() <= found {
                return turn_of(q, mark, c.bit, found);
            }
            i = 0;
            b = mark as usize;
        }
    }
}

// Counts the pages that the first k lists share, and lists them at the room's front, as far as it goes; those behind its
// end go to a room that is dropped.
pub fn list_common(table: &Table, card: &[u8], shapes: &[u32], k: usize, room: &mut [u32]) -> Listed
    requires { Lists card.now shapes.now k }
    ensures { Tells (whole_in card.now shapes.now k) result
        × (room.new ≡ laid_within (whole_in card.now shapes.now k).listed
        room.old) }
{
    let q = Query::new();
    let mut s = Turn {
        q,
        mark: 0,
        bit: 0,
        found: 0,
    };
    if 0 < room.len() {
        s = batch(table, card, shapes, q, k, 0, room);
    }
    let mut found = s.found;
    let mut rest = [0u32; 64];
    while s.mark != SPENT {
        s = batch(table, card, shapes, s.q, k, s.mark as usize, &mut rest);
        found += s.found;
    }
    rows::totals(s.q, found)
}
