// One term of a card, and its lists as parts. Here and above, a card that is accepted is handed on as its bytes, and each
// function asks that it is: no struct holds a reference (tests/counts, `numbers_alone`).
#![tactic(auto)]

ghost use Rattle.std.specs.Prelude.{◌≡◌, ◌<◌};
ghost use Rattle.rules.specs.Verdict.{Accepted};
ghost use Rattle.rules.specs.Parts.{after};
ghost use Rattle.rules.specs.ReadTerm.{lists_of, pages_of};
ghost use Rattle.rules.specs.Index.{index_t, term_part, index_refusal};
ghost use Rattle.findlaws.specs.Starts.{Accepts, TermThere, TermAt};

use rules::{INDEX_HEADER, LISTS_AT};

// Term number t.
pub fn find_term(card: &[u8], t: usize) -> &[u8]
    requires { (index_refusal card.now ≡ Accepted) × (t < index_t card.now) }
    ensures { result.now ≡ term_part t card.now }
{
    parts::block_of(card, INDEX_HEADER, t)
}

// The term that starts at byte `at`, as the part of the card that it is.
pub fn term_at(card: &[u8], at: usize) -> &[u8]
    requires { (index_refusal card.now ≡ Accepted) × TermThere card.now at }
    ensures { TermAt card.now at result.now }
{
    parts::part_at(card, at)
}

// The bytes from list number k on: pages, counts, positions.
pub fn lists_from(term: &[u8], k: usize) -> &[u8]
    requires { Accepts term.now × (k < 3) }
    ensures { result.now ≡ after k (lists_of term.now) }
{
    parts::blocks_from(term, LISTS_AT, k)
}

// The list of a term's pages.
pub fn pages_of(term: &[u8]) -> &[u8]
    requires { Accepts term.now }
    ensures { result.now ≡ pages_of term.now }
{
    parts::part_at(lists_from(term, 0), 0)
}
