// Answers of one list: its element of a rank, and its first element at or above a bound.
#![tactic(auto)]

ghost use Rattle.std.specs.Prelude.{◌≡◌, ◌<◌};
ghost use Rattle.rules.specs.Verdict.{Accepted};
ghost use Rattle.rules.specs.ReadList.{form_at, decode};
ghost use Rattle.rules.specs.ReadTerm.{pages_of};
ghost use Rattle.rules.specs.Index.{index_t, term_part, index_refusal};
ghost use Rattle.rules.specs.Questions.{pages_in, by_rank, by_bound};
ghost use Rattle.maplaws.specs.Maps.{FormValid};
ghost use Rattle.questions.specs.Wrote.{Wrote};
ghost use Rattle.kinds.specs.Alone.{OpenedAlone};

use bytetable::Table;
use querylaws::{LENGTH, Query};
use walklaws::SPENT;

// The block of a word's pages.
fn pages_in(card: &[u8], t: usize) -> &[u8]
    requires { (index_refusal card.now ≡ Accepted) × (t < index_t card.now) }
    ensures { result.now ≡ pages_of (term_part t card.now) }
{
    findterm::pages_of(findterm::find_term(card, t))
}

// The element of that rank, if there is one.
fn put_ranked(table: &Table, pages: &[u8], rank: usize, room: &mut [u32]) -> Option<usize>
    requires { FormValid (form_at pages.now) pages.now }
    ensures { Wrote (by_rank (decode pages.now) rank) room.old result room.new }
{
    let g = reading::shape_at(pages);
    if g.n <= rank {
        return replies::put(&[0], room);
    }
    let page = byrank::element_at(table, pages, g, rank);
    replies::put(&[1, page as u32], room)
}

// Kind 1: the page of that rank of word t, if there is one.
pub fn by_rank(table: &Table, card: &[u8], t: usize, rank: usize, room: &mut [u32]) -> Option<usize>
    requires { (index_refusal card.now ≡ Accepted) × (t < index_t card.now) }
    ensures { Wrote (by_rank (pages_in card.now t) rank) room.old result room.new }
{
    put_ranked(table, pages_in(card, t), rank, room)
}

// The numbers of a list of pages, as the one list of a query over its own bytes.
fn open_alone(pages: &[u8]) -> [u32; 8]
    requires { FormValid (form_at pages.now) pages.now }
    ensures { OpenedAlone pages.now result }
{
    openlists::numbers_at(pages, 0, pages.len())
}

// Kind 2: the first page at or above the bound, and its rank; or the number of all pages where there is none.
pub fn by_bound(table: &Table, card: &[u8], t: u32, bound: usize, room: &mut [u32]) -> Option<usize>
    requires { (index_refusal card.now ≡ Accepted) × (t < index_t card.now) }
    ensures { Wrote (by_bound (pages_in card.now t) bound) room.old result room.new }
{
    let pages = pages_in(card, t as usize);
    let shapes = open_alone(pages);
    let mut page = [0u32; 1];
    let turn = query::batch(table, pages, &shapes, Query::new(), 1, bound, &mut page);
    if turn.mark == SPENT {
        return replies::put(&[1, shapes[LENGTH]], room);
    }
    let rank = rows::rank_in(pages, &shapes, 0, turn.mark, turn.bit);
    replies::put(&[2, turn.mark - 1, rank as u32], room)
}
