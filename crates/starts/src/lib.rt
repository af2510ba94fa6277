// The starts of a phrase on one page.
#![tactic(auto)]

ghost use Rattle.std.specs.Prelude.{◌-◌};
ghost use Rattle.triallaws.specs.Asked.{Turnable, CountedOn};

use bytetable::Table;
use querylaws::Turn;
use trial::Trial;
use triallaws::{COUNTS, LEAD, OFFSETS, POSITIONS};

// The starts of several words on a page that all cursors are on: the words are turned to it only as they are needed.
fn count_starts(
    table: &Table,
    card: &[u8],
    terms: &[u32],
    lists: &[u32],
    turn: Turn,
    words: &mut [usize],
) -> usize
    requires { Turnable card.now terms.now lists.now turn words.old }
    ensures { CountedOn card.now terms.now lists.now (turn.mark - 1) result
        words.new }
{
    let mut at = Trial {
        turned: 0,
        start: 0,
        standing: 0,
        count: 0,
    };
    loop {
        let turned = trying::turn_next(table, card, terms, lists, turn, at, words);
        let i = openlists::source_of(lists[LEAD] as usize, turned.standing);
        let offset = lists[OFFSETS + i] as usize;
        let sought = phrase::position_from(
            card,
            &lists[POSITIONS..LEAD],
            i,
            turned.start + offset,
            words,
        );
        let Some(next) = sought else {
            return turned.count;
        };
        at = trial::tried(turned, next - offset, terms.len());
    }
}

// The starts on a page that all cursors are on; of a word alone, its positions there, and none of them is read.
pub fn page_starts(
    table: &Table,
    card: &[u8],
    terms: &[u32],
    lists: &[u32],
    turn: Turn,
    words: &mut [usize],
) -> usize
    requires { Turnable card.now terms.now lists.now turn words.old }
    ensures { CountedOn card.now terms.now lists.now (turn.mark - 1) result
        words.new }
{
    if terms.len() == 1 {
        let q = turn.q;
        let c = q.cursors[0];
        let rank = rows::rank_in(card, &lists[0..COUNTS], 0, c.mark, c.bit);
        let x = turning::ranks_at(table, card, &lists[COUNTS..POSITIONS], 0, rank, words);
        return x.to - x.from;
    }
    count_starts(table, card, terms, lists, turn, words)
}
