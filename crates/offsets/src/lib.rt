// The pairs of a phrase: a term and its offset each. Whether they may be asked for, and the two put apart.
#![tactic(auto)]

ghost use Rattle.std.specs.Prelude.{◌≡◌, ◌≤◌, length};
ghost use Rattle.rules.specs.Questions.{terms_of, phrase_good};
ghost use Rattle.offsets.specs.Pairs.{pairs_good, Even, Split};

use rules::{OFFSET_LIMIT, PHRASE_LIMIT};

// Whether every pair is a term below t and an offset further than the one before, up to the limit.
fn pairs_good(pairs: &[u32], t: usize) -> bool
    requires { Even pairs.now }
    ensures { result ≡ pairs_good t 0 pairs.now }
{
    let mut least = 0;
    for pair in pairs.chunks_exact(2) {
        if t <= pair[0] as usize {
            return false;
        }
        let offset = pair[1] as usize;
        if offset < least {
            return false;
        }
        if OFFSET_LIMIT < offset {
            return false;
        }
        least = offset + 1;
    }
    true
}

// Whether one to eight pairs may be asked for, the first of which has offset 0.
pub fn phrase_good(pairs: &[u32], t: usize) -> bool
    ensures { result ≡ phrase_good t pairs.now }
{
    if pairs.len() < 2 {
        return false;
    }
    if 2 * PHRASE_LIMIT < pairs.len() {
        return false;
    }
    if pairs.len() % 2 != 0 {
        return false;
    }
    if pairs[1] != 0 {
        return false;
    }
    pairs_good(pairs, t)
}

// Puts the terms and the offsets of a phrase's pairs apart; how many there are.
pub fn split_pairs(pairs: &[u32], terms: &mut [u32], offsets: &mut [u32]) -> usize
    requires { Even pairs.now × (length pairs.now ≤ 16) × (length terms.old ≡ 8)
        × (length offsets.old ≡ 8) }
    ensures { (result ≡ length (terms_of pairs.now))
        × Split pairs.now terms.new offsets.new }
{
    for (i, pair) in pairs.chunks_exact(2).enumerate() {
        terms[i] = pair[0];
        offsets[i] = pair[1];
    }
    pairs.len() / 2
}
