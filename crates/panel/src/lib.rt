// A screen of common pages, above the index library: what it knows of the library is the promise of each call.
#![tactic(auto)]

ghost use Rattle.std.specs.Prelude.{◌≡◌, true, [], ◌∷◌, ◌-◌, ◌≤◌, ◌<◌, length, get_or, take};
ghost use Rattle.rules.specs.Verdict.{Accepted};
ghost use Rattle.rules.specs.Limits.{limit};
ghost use Rattle.rules.specs.Index.{index_t, index_refusal};
ghost use Rattle.rules.specs.Questions.{words_good};
ghost use Rattle.rules.specs.Screen.{screen_good, screening, showing};
ghost use Rattle.rules.specs.Promises.{ScreenShown};
ghost use Rattle.panel.specs.Listing.{Lists, Shows};

use querylaws::{Listed, Query};
use rules::{INDEX_T_AT, Refusal, SCREEN_LIMIT, Screened};

// Whether a screen of r pages of these words may be asked of t words.
fn may_show(r: u32, words: &[u32], t: usize) -> bool
    ensures { result ≡ screen_good t r words.now }
{
    if r < 1 {
        return false;
    }
    if SCREEN_LIMIT < r {
        return false;
    }
    questions::words_good(words, t)
}

// Lists the pages from the bound on that the words share at the front of the list, until there are as many as a screen
// has or none is left.
fn list_from(card: &[u8], words: &[u32], bound: usize, size: usize, list: &mut [u32]) -> Listed
    requires { (index_refusal card.now ≡ Accepted) × (words_good (index_t card.now) words.now ≡ true)
        × (0 < size) × (size ≤ length list.old) }
    ensures { Lists card.now bound size words.now list.new result.found result.seeks
        result.looks × (length list.new ≡ length list.old) }
{
    let mut shapes = [0u32; 64];
    wordlists::open_pages(card, words, &mut shapes);
    let table = bytetable::places();
    let room = &mut list[0..size];
    let turn = query::batch(
        &table,
        card,
        &shapes,
        Query::new(),
        words.len(),
        bound,
        room,
    );
    rows::totals(turn.q, turn.found)
}

// The answer of a screen of r pages that shows those at the front of the list.
fn shown(r: u32, list: &[u32], found: usize) -> Screened
    requires { (0 < r) × (found ≤ r) × (r ≤ length list.now)
        × (found ≡ r → get_or list.now (r - 1) 0 ≤ limit) }
    ensures { Shows r (take found list.now) result }
{
    if found < r as usize {
        return Screened { found, next: None };
    }
    Screened {
        found,
        next: Some(list[found - 1] + 1),
    }
}

// Hands a screen of r pages over, if both rooms are long enough for it.
fn put_screen(
    r: u32,
    list: &[u32],
    listed: Listed,
    pages: &mut [u32],
    counts: &mut [u32],
) -> Result<Screened, Refusal>
    requires { (0 < r) × (listed.found ≤ r) × (r ≤ length list.now)
        × (listed.found ≡ r → get_or list.now (r - 1) 0 ≤ limit) }
    ensures { screening result pages.new counts.new
        ≡ showing r (take listed.found list.now) (listed.seeks ∷ listed.looks ∷ [])
        pages.old counts.old }
{
    let found = listed.found;
    if pages.len() < found {
        return Err(Refusal::Room);
    }
    if replies::put(&[listed.seeks, listed.looks], counts).is_none() {
        return Err(Refusal::Room);
    }
    replies::put(&list[0..found], pages);
    Ok(shown(r, list, found))
}

// A screen of r pages that the words share, from the bound on: the card is checked whole, then r and the words.
pub fn screen(
    card: &[u8],
    bound: u32,
    r: u32,
    words: &[u32],
    pages: &mut [u32],
    counts: &mut [u32],
) -> Result<Screened, Refusal>
    ensures { ScreenShown card.now bound r words.now pages.old
        counts.old result pages.new counts.new }
{
    checkindex::check_index(card)?;
    let t = numbers::read_u16(card, INDEX_T_AT) as usize;
    if !may_show(r, words, t) {
        return Err(Refusal::Question);
    }
    let mut list = [0u32; 64];
    let listed = list_from(card, words, bound as usize, r as usize, &mut list);
    put_screen(r, &list, listed, pages, counts)
}
