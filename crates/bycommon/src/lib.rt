// Kind 3: the pages that a question's words share, with the seeks and looks that finding them took.
#![tactic(auto)]

ghost use Rattle.std.specs.Prelude.{◌≡◌, true, ◌+◌, ◌≤◌, length, Some};
ghost use Rattle.rules.specs.Verdict.{Accepted};
ghost use Rattle.rules.specs.Index.{index_v, index_n, index_t, index_refusal};
ghost use Rattle.rules.specs.Questions.{lists_in, by_common, words_good};
ghost use Rattle.questions.specs.Wrote.{Wrote};
ghost use Rattle.querylaws.specs.Lists.{Lists};
ghost use Rattle.querylaws.specs.Listings.{whole_in};
ghost use Rattle.bycommon.specs.Tallies.{tallied};

use bytetable::Table;
use querylaws::LENGTH;

// Puts the answer into room that is enough for it; how many numbers it has.
fn put_common(table: &Table, card: &[u8], shapes: &[u32], k: usize, room: &mut [u32]) -> usize
    requires { Lists card.now shapes.now k
        × (length (whole_in card.now shapes.now k).listed + 3 ≤ length room.old) }
    ensures { Wrote (tallied (whole_in card.now shapes.now k)) room.old (Some result)
        room.new }
{
    let listed = query::list_common(table, card, shapes, k, &mut room[3..]);
    room[0] = (listed.found + 2) as u32;
    room[1] = listed.seeks;
    room[2] = listed.looks;
    listed.found + 3
}

// The pages of the words; they are counted first only where the room may be too small for them.
pub fn by_common(table: &Table, card: &[u8], terms: &[u32], room: &mut [u32]) -> Option<usize>
    requires { (index_refusal card.now ≡ Accepted) × (words_good (index_t card.now) terms.now ≡ true) }
    ensures { Wrote
        (by_common (index_v card.now) (index_n card.now)
        (lists_in card.now terms.now))
        room.old result room.new }
{
    let k = terms.len();
    let mut shapes = [0u32; 64];
    wordlists::open_pages(card, terms, &mut shapes);
    if rows::number(&shapes, 0, LENGTH) + 3 <= room.len() {
        return Some(put_common(table, card, &shapes, k, room));
    }
    let mut none = [0u32; 0];
    let counted = query::list_common(table, card, &shapes, k, &mut none);
    if room.len() < counted.found + 3 {
        return None;
    }
    Some(put_common(table, card, &shapes, k, room))
}
