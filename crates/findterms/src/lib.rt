// The starts of several terms, found on one way over the card.
#![tactic(auto)]

ghost use Rattle.std.specs.Prelude.{◌≡◌, ◌≤◌, length};
ghost use Rattle.rules.specs.Verdict.{Accepted};
ghost use Rattle.rules.specs.Index.{index_refusal};
ghost use Rattle.findlaws.specs.Starts.{Below, Found, LeastFrom, Put};

use rules::INDEX_HEADER;

// The least of the terms at or above t, if there is one.
fn least_from(terms: &[u32], t: usize) -> Option<usize>
    ensures { LeastFrom terms.now t result }
{
    terms
        .iter()
        .map(|&term| term as usize)
        .filter(|&term| t <= term)
        .min()
}

// Puts the byte at which term number t starts, for each of the terms that it is.
fn put_start(terms: &[u32], t: usize, at: usize, starts: &mut [usize])
    requires { length terms.now ≤ length starts.old }
    ensures { Put terms.now t at starts.old starts.new }
{
    for (i, &term) in terms.iter().enumerate() {
        if term as usize == t {
            starts[i] = at;
        }
    }
}

// Puts the bytes at which the terms start, found in rising order on one way over the lengths: each step hands back what
// is left of the card from the next of them on.
pub fn find_terms(card: &[u8], terms: &[u32], starts: &mut [usize])
    requires { (index_refusal card.now ≡ Accepted) × Below card.now terms.now
        × (length terms.now ≤ length starts.old) }
    ensures { Found card.now terms.now starts.new }
{
    let mut t = 0;
    let mut rest = &card[INDEX_HEADER..];
    let mut next = least_from(terms, 0);
    while let Some(term) = next {
        rest = parts::blocks_from(rest, 0, term - t);
        t = term;
        put_start(terms, t, card.len() - rest.len(), starts);
        next = least_from(terms, t + 1);
    }
}
