// Whether a run of postings may follow those of a session: the run's own tests, the seam, and the announcement.
#![tactic(auto)]

ghost use Rattle.std.specs.Prelude.{true, ◌≡◌, ◌+◌, ◌≤◌, length};
ghost use Rattle.rules.specs.Limits.{limit};
ghost use Rattle.rules.specs.List.{rising};
ghost use Rattle.rules.specs.Term.{lent_word, next};
ghost use Rattle.rules.specs.Stream.{live};
ghost use Rattle.sessionlaws.specs.Follow.{starts, Followed, stepped};

use rules::Stream;

// Whether the pages start at `least` or above.
fn above(least: usize, pages: &[u32]) -> bool
    ensures { result ≡ starts least pages.now }
{
    let Some(&first) = pages.first() else {
        return true;
    };
    least <= first as usize
}

// The base behind the postings of any number of pages; nothing where they may not follow.
fn follow_word(s: Stream, pages: &[u32], counts: &[u32], positions: &[u32]) -> Option<usize>
    requires { live s ≡ true }
    ensures { Followed s (lent_word pages.now counts.now positions.now) result }
{
    let pages_left = (s.pages - s.laid) as usize;
    if pages_left < pages.len() {
        return None;
    }
    let positions_left = (s.positions - s.filled) as usize;
    if positions_left < positions.len() {
        return None;
    }
    let reach = testword::check_word(s.n as usize, pages, counts, positions)?;
    if !above(s.page as usize, pages) {
        return None;
    }
    let next = s.base as usize + reach;
    (next <= s.u as usize).then_some(next)
}

// The same for one page, whose positions rise to below what is left of U.
fn follow_page(s: Stream, pages: &[u32], counts: &[u32], positions: &[u32]) -> Option<usize>
    requires { (live s ≡ true) × (length pages.now ≡ 1) }
    ensures { Followed s (lent_word pages.now counts.now positions.now) result }
{
    if s.laid == s.pages {
        return None;
    }
    let positions_left = (s.positions - s.filled) as usize;
    if positions_left < positions.len() {
        return None;
    }
    if counts.len() != 1 {
        return None;
    }
    if counts[0] as usize != positions.len() {
        return None;
    }
    let last = *positions.last()?;
    if pages[0] < s.page {
        return None;
    }
    if s.n <= pages[0] {
        return None;
    }
    if s.u < s.base {
        return None;
    }
    if !rising::rises((s.u - s.base) as usize, positions) {
        return None;
    }
    Some(s.base as usize + last as usize + 1)
}

// The base behind the postings; nothing where they may not follow.
pub fn follow(s: Stream, pages: &[u32], counts: &[u32], positions: &[u32]) -> Option<usize>
    requires { live s ≡ true }
    ensures { Followed s (lent_word pages.now counts.now positions.now) result }
{
    if pages.len() == 1 {
        return follow_page(s, pages, counts, positions);
    }
    follow_word(s, pages, counts, positions)
}

// The least page that may follow, where `least` may follow those before.
fn behind(n: usize, least: u32, pages: &[u32]) -> u32
    requires { (rising 0 n pages.now ≡ true) × (n ≤ limit) }
    ensures { result ≡ next least pages.now }
{
    let Some(&last) = pages.last() else {
        return least;
    };
    last + 1
}

// The session behind postings that follow, where `base` is the base behind them.
pub fn advance(s: Stream, pages: &[u32], positions: &[u32], base: usize) -> Stream
    requires { (rising 0 s.n pages.now ≡ true) × (s.n ≤ limit) × (s.laid + length pages.now ≤ s.pages)
        × (s.filled + length positions.now ≤ s.positions) × (base ≤ limit) }
    ensures { result ≡ stepped s pages.now positions.now base }
{
    let mut r = s;
    r.laid = s.laid + pages.len() as u32;
    r.filled = s.filled + positions.len() as u32;
    r.page = behind(s.n as usize, s.page, pages);
    r.base = base as u32;
    r
}
