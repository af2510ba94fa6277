// Kind 4, the pages on which a phrase starts, and the answer to one question by its kind.
#![tactic(auto)]

ghost use Rattle.std.specs.Prelude.{◌≡◌, true, length, get_or};
ghost use Rattle.rules.specs.Verdict.{Accepted};
ghost use Rattle.rules.specs.Index.{index_t, index_refusal};
ghost use Rattle.rules.specs.Questions.{by_phrase, phrase_in, answer, words_good, phrase_good, good_question};
ghost use Rattle.questions.specs.Wrote.{Wrote};
ghost use Rattle.triallaws.specs.Asked.{offsets_in, AskedIn, PhraseOpened};

use bytetable::Table;
use questions::Kind;
use triallaws::{COUNTS, LEAD, OFFSETS, POSITIONS, ROW};

// Finds the words' terms on one way, and opens their lists into the row, whose offsets stay.
fn open_row(card: &[u8], terms: &[u32], lists: &mut [u32])
    requires { (index_refusal card.now ≡ Accepted) × (words_good (index_t card.now) terms.now ≡ true)
        × (length lists.old ≡ 201) × (get_or (offsets_in lists.old) 0 0 ≡ 0) }
    ensures { AskedIn card.now terms.now lists.new
        × (offsets_in lists.new ≡ offsets_in lists.old) }
{
    let mut starts = [0usize; 8];
    findterms::find_terms(card, terms, &mut starts);
    let lead = wordlists::open_found(card, terms, &starts, &mut lists[0..COUNTS]);
    openwords::open_words(card, terms, &starts, 1, &mut lists[COUNTS..POSITIONS]);
    openwords::open_words(card, terms, &starts, 2, &mut lists[POSITIONS..LEAD]);
    lists[LEAD] = lead as u32;
}

// Puts the terms of a phrase's pairs apart, and the numbers of their lists and their offsets into the row; how many
// there are.
fn open_phrase(card: &[u8], pairs: &[u32], terms: &mut [u32], lists: &mut [u32]) -> usize
    requires { (index_refusal card.now ≡ Accepted) × (phrase_good (index_t card.now) pairs.now ≡ true)
        × (length terms.old ≡ 8) × (length lists.old ≡ 201) }
    ensures { PhraseOpened card.now pairs.now result terms.new
        lists.new }
{
    let k = offsets::split_pairs(pairs, terms, &mut lists[OFFSETS..ROW]);
    open_row(card, &terms[0..k], lists);
    k
}

// Kind 4: the pages with a start of the phrase, each with the number of its starts.
fn by_phrase(table: &Table, card: &[u8], pairs: &[u32], room: &mut [u32]) -> Option<usize>
    requires { (index_refusal card.now ≡ Accepted) × (phrase_good (index_t card.now) pairs.now ≡ true) }
    ensures { Wrote (by_phrase (phrase_in card.now pairs.now)) room.old result
        room.new }
{
    let mut terms = [0u32; 8];
    let mut lists = [0u32; 201];
    let k = open_phrase(card, pairs, &mut terms, &mut lists);
    pairs::put_starts(table, card, &terms[0..k], &lists, room)
}

// The answer of a question that may be asked, whole at the front of the room, if it fits.
pub fn answer_one(
    table: &Table,
    card: &[u8],
    kind: u32,
    args: &[u32],
    room: &mut [u32],
) -> Option<usize>
    requires { (index_refusal card.now ≡ Accepted) × (good_question (index_t card.now) kind args.now ≡ true) }
    ensures { Wrote (answer card.now kind args.now) room.old result
        room.new }
{
    match Kind::from_number(kind) {
        Some(Kind::ByRank) => kinds::by_rank(table, card, args[0] as usize, args[1] as usize, room),
        Some(Kind::ByBound) => kinds::by_bound(table, card, args[0], args[1] as usize, room),
        Some(Kind::Common) => bycommon::by_common(table, card, args, room),
        Some(Kind::Phrase) => by_phrase(table, card, args, room),
        None => unreachable!(),
    }
}
