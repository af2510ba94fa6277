// The words of a phrase tried at a start, each turned to the page once it is needed.
#![tactic(auto)]

ghost use Rattle.std.specs.Prelude.{◌≡◌, ◌-◌, ◌<◌};
ghost use Rattle.triallaws.specs.Asked.{pages_in, AskedIn, OnAll, TryingIn};

use bytetable::Table;
use querylaws::Turn;
use trial::Trial;
use triallaws::{COUNTS, LEAD, POSITIONS};

// Turns the next word to be tried to the page that all cursors are on, where it is not turned yet; words are tried in
// the order of their slots, of which the word that leads has the first.
pub fn turn_next(
    table: &Table,
    card: &[u8],
    terms: &[u32],
    lists: &[u32],
    turn: Turn,
    at: Trial,
    words: &mut [usize],
) -> Trial
    requires { AskedIn card.now terms.now lists.now
        × OnAll card.now terms.now (pages_in lists.now) turn.q (turn.mark - 1)
        × TryingIn card.now terms.now lists.now (turn.mark - 1) at words.old }
    ensures { TryingIn card.now terms.now lists.now (turn.mark - 1) result
        words.new × (result.standing < result.turned) × (result.start ≡ at.start) × (result.standing ≡ at.standing) }
{
    if at.standing < at.turned {
        return at;
    }
    let i = openlists::source_of(lists[LEAD] as usize, at.standing);
    let q = turn.q;
    let slot = at.standing;
    let c = q.cursors[slot];
    let rank = rows::rank_in(card, &lists[0..COUNTS], slot, c.mark, c.bit);
    let x = turning::ranks_at(table, card, &lists[COUNTS..POSITIONS], i, rank, words);
    turning::turn_to(table, card, &lists[POSITIONS..LEAD], i, x, words);
    Trial {
        turned: at.turned + 1,
        ..at
    }
}
