// Where the lists of a question's words lie in an accepted card.
#![tactic(auto)]

ghost use Rattle.std.specs.Prelude.{◌≡◌, true, ◌<◌, length};
ghost use Rattle.rules.specs.Verdict.{Accepted};
ghost use Rattle.rules.specs.Index.{index_t, index_refusal};
ghost use Rattle.rules.specs.Common.{lead_of};
ghost use Rattle.rules.specs.Questions.{lists_in, words_good};
ghost use Rattle.findlaws.specs.Starts.{TermThere, Found};
ghost use Rattle.wordlists.specs.Lying.{ListLying, AllLying};
ghost use Rattle.wordlists.specs.Opened.{OpenedPages};

// The byte of a card at which a part starts, and that at which it has ended: what is kept of several parts, of which
// there is no array.
#[derive(Clone, Copy)]
pub struct ByteRange {
    pub from: usize,
    pub to: usize,
}

// The place of list number k of the word whose term starts at byte `at`: pages, counts, positions.
pub fn list_in(card: &[u8], at: usize, k: usize) -> ByteRange
    requires { (index_refusal card.now ≡ Accepted) × TermThere card.now at × (k < 3) }
    ensures { ListLying card.now at k result.from result.to }
{
    let term = findterm::term_at(card, at);
    let rest = findterm::lists_from(term, k);
    let list = parts::part_at(rest, 0);
    let from = at + (term.len() - rest.len());
    ByteRange {
        from,
        to: from + list.len(),
    }
}

// Puts the places of the words' lists number k, two numbers each.
fn place_lists(card: &[u8], terms: &[u32], starts: &[usize; 8], k: usize, places: &mut [u32; 16])
    requires { (index_refusal card.now ≡ Accepted) × (words_good (index_t card.now) terms.now ≡ true) × (k < 3)
        × Found card.now terms.now starts.now }
    ensures { AllLying card.now terms.now k (length terms.now)
        places.new }
{
    // By number: a term's start and its two places stand at it, of three arrays.
    for i in 0..terms.len() {
        let place = list_in(card, starts[i], k);
        places[2 * i] = place.from as u32;
        places[2 * i + 1] = place.to as u32;
    }
}

// Opens the pages of words whose terms are found side by side, the shortest list first and the others in their order;
// returns the number of the word whose list leads.
pub fn open_found(card: &[u8], terms: &[u32], starts: &[usize; 8], shapes: &mut [u32]) -> usize
    requires { (index_refusal card.now ≡ Accepted) × (words_good (index_t card.now) terms.now ≡ true)
        × (length shapes.old ≡ 64) × Found card.now terms.now starts.now }
    ensures { (result ≡ lead_of (lists_in card.now terms.now))
        × OpenedPages card.now terms.now shapes.new }
{
    let mut places = [0u32; 16];
    place_lists(card, terms, starts, 0, &mut places);
    openlists::open_lists(card, &places, terms.len(), shapes)
}

// Finds the words' terms, and opens their pages so.
pub fn open_pages(card: &[u8], terms: &[u32], shapes: &mut [u32]) -> usize
    requires { (index_refusal card.now ≡ Accepted) × (words_good (index_t card.now) terms.now ≡ true)
        × (length shapes.old ≡ 64) }
    ensures { (result ≡ lead_of (lists_in card.now terms.now))
        × OpenedPages card.now terms.now shapes.new }
{
    let mut starts = [0usize; 8];
    findterms::find_terms(card, terms, &mut starts);
    open_found(card, terms, &starts, shapes)
}
