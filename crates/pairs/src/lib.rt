// The pages on which a phrase starts, each with its starts, put into a room that they fit.
#![tactic(auto)]

ghost use Rattle.std.specs.Prelude.{◌≡◌, ◌^◌, ◌<◌, ltb, length, ◌∷◌};
ghost use Rattle.rules.specs.Questions.{numbered};
ghost use Rattle.rules.specs.Write.{laid};
ghost use Rattle.questions.specs.Wrote.{Wrote};
ghost use Rattle.triallaws.specs.Asked.{found_by, AskedIn};

use bytetable::Table;
use querylaws::{LENGTH, Query};
use triallaws::COUNTS;
use walklaws::SPENT;

// Lists the pairs behind the room's first number, as far as there is room, and counts their numbers.
fn list_starts(table: &Table, card: &[u8], terms: &[u32], lists: &[u32], room: &mut [u32]) -> usize
    requires { AskedIn card.now terms.now lists.now × (0 < length room.old) }
    ensures { (result ≡ length (found_by card.now terms.now lists.now))
        × (result < 2 ^ 32) × (result < length room.old → room.new
        ≡ laid (0 ∷ found_by card.now terms.now lists.now) room.old) }
{
    room[0] = 0;
    let mut q = Query::new();
    let mut words = [0usize; 64];
    let mut page = [0u32; 1];
    let mut b = 0;
    let mut found = 0;
    loop {
        let turn = query::batch(table, card, &lists[0..COUNTS], q, terms.len(), b, &mut page);
        if turn.mark == SPENT {
            return found;
        }
        let n = starts::page_starts(table, card, terms, lists, turn, &mut words);
        found = trial::put_pair(room, found, turn.mark - 1, n as u32);
        q = turn.q;
        b = turn.mark as usize;
    }
}

// Whether the answer fits so many numbers; it is counted only where two numbers for each page of the lead may not fit.
fn fits(table: &Table, card: &[u8], terms: &[u32], lists: &[u32], size: usize) -> bool
    requires { AskedIn card.now terms.now lists.now }
    ensures { result ≡ ltb (length (found_by card.now terms.now lists.now)) size }
{
    if 2 * rows::number(&lists[0..COUNTS], 0, LENGTH) < size {
        return true;
    }
    let mut none = [0u32; 1];
    list_starts(table, card, terms, lists, &mut none) < size
}

// Puts the pairs, with the number of their numbers before them, at the front of the room, if they fit.
pub fn put_starts(
    table: &Table,
    card: &[u8],
    terms: &[u32],
    lists: &[u32],
    room: &mut [u32],
) -> Option<usize>
    requires { AskedIn card.now terms.now lists.now }
    ensures { Wrote (numbered (found_by card.now terms.now lists.now))
        room.old result room.new }
{
    if !fits(table, card, terms, lists, room.len()) {
        return None;
    }
    let found = list_starts(table, card, terms, lists, room);
    room[0] = found as u32;
    Some(found + 1)
}
