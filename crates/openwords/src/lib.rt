// Opening the lists of a question's words, each in the slot of its word.
#![tactic(auto)]

ghost use Rattle.std.specs.Prelude.{◌≡◌, true, ◌<◌, length};
ghost use Rattle.rules.specs.Verdict.{Accepted};
ghost use Rattle.rules.specs.Index.{index_t, index_refusal};
ghost use Rattle.findlaws.specs.Starts.{Found};
ghost use Rattle.rules.specs.Questions.{words_good};
ghost use Rattle.openwords.specs.Slots.{Filled};

// Opens the lists number k of words whose terms are found, 1 counts or 2 positions, each in its word's slot of the 64
// numbers.
pub fn open_words(card: &[u8], terms: &[u32], starts: &[usize; 8], k: usize, shapes: &mut [u32])
    requires { (index_refusal card.now ≡ Accepted) × (words_good (index_t card.now) terms.now ≡ true)
        × (0 < k) × (k < 3)
        × (length shapes.old ≡ 64) × Found card.now terms.now starts.now }
    ensures { Filled card.now terms.now k (length terms.now)
        shapes.new }
{
    // By number: a term's start stands at it, and it is the slot.
    for i in 0..terms.len() {
        let place = wordlists::list_in(card, starts[i], k);
        let numbers = openlists::numbers_at(card, place.from, place.to);
        openlists::put_list(shapes, i, numbers);
    }
}
