// The check of an index: the refusal that its bytes get, with each term handed on as the part of the bytes that it is.
#![tactic(auto)]

ghost use Rattle.std.specs.Prelude.{◌≡◌, ◌≤◌, length, drop};
ghost use Rattle.rules.specs.Index.{terms_refusal};
ghost use Rattle.rules.specs.Promises.{IndexChecked};
ghost use Rattle.cardlaws.specs.Terms.{word_refusal, word_inside, body_refusal};

use rules::{
    INDEX_HEADER, INDEX_N_AT, INDEX_T_AT, LAST_EDITION, LIMIT, LIST_U_AT, Refusal, TERM_HEADER,
    TERM_LIMIT, VERSION_AT,
};

// The refusal of a term block that should be of pages below n, in an index of that version.
fn check_term_below(version: u32, block: &[u8], n: usize) -> Result<(), Refusal>
    ensures { result ≡ word_refusal version n block.now }
{
    checkterm::check_term(version, block)?;
    let pages = findterm::pages_of(block);
    if numbers::read_u32(pages, LIST_U_AT) as usize != n {
        return Err(Refusal::Parts);
    }
    Ok(())
}

// The refusal of the term block at byte `at`, where the bytes behind it are what remains of the index.
fn check_term_at(version: u32, s: &[u8], at: usize, n: usize) -> Result<(), Refusal>
    requires { at ≤ length s.now }
    ensures { result ≡ word_inside version n (drop at s.now) }
{
    parts::check_front(s, at, TERM_HEADER)?;
    check_term_below(version, parts::part_at(s, at), n)
}

// The refusal of t term blocks of pages below n, and of what is left behind them.
fn check_terms(version: u32, s: &[u8], t: usize, n: usize) -> Result<(), Refusal>
    ensures { result ≡ terms_refusal version t n s.now }
{
    let mut at = 0;
    for _ in 0..t {
        check_term_at(version, s, at, n)?;
        at += numbers::read_u32(s, at) as usize;
    }
    if at < s.len() {
        return Err(Refusal::Layout);
    }
    Ok(())
}

// The refusal of an index behind its header: n or t over its limit, and then its terms.
pub fn check_body(version: u32, s: &[u8], t: usize, n: usize) -> Result<(), Refusal>
    ensures { result ≡ body_refusal version t n s.now }
{
    if LIMIT < n {
        return Err(Refusal::Limit);
    }
    if TERM_LIMIT < t {
        return Err(Refusal::Limit);
    }
    check_terms(version, s, t, n)
}

// The refusal of an index.
pub fn check_index(card: &[u8]) -> Result<(), Refusal>
    ensures { IndexChecked card.now result }
{
    parts::check_head(card, INDEX_HEADER, LAST_EDITION as u8)?;
    let version = card[VERSION_AT] as u32;
    let n = numbers::read_u32(card, INDEX_N_AT) as usize;
    let t = numbers::read_u16(card, INDEX_T_AT) as usize;
    check_body(version, &card[INDEX_HEADER..], t, n)
}
