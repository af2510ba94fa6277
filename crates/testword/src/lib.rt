// Whether a word can be written: counts that fit its positions, and positions in order on each page. Here and above, a
// word's three lists go side by side: no struct holds a reference (tests/counts, `numbers_alone`).
#![tactic(auto)]

ghost use Rattle.std.specs.Prelude.{true, ◌≡◌, ◌+◌, ◌≤◌, ◌<◌, length};
ghost use Rattle.rules.specs.Term.{lent_word, total, next, placed, places, positive, in_order_by_page, valid_word};
ghost use Rattle.wordlaws.specs.Reach.{summing, fall_at, falls_in, Reached};

use rules::LIMIT;

// Whether every count is at least 1 and their sum is n.
fn counts_fit(counts: &[u32], n: usize) -> bool
    ensures { result ≡ summing n counts.now }
{
    let mut left = n;
    for &count in counts {
        let c = count as usize;
        if c == 0 {
            return false;
        }
        if left < c {
            return false;
        }
        left -= c;
    }
    left == 0
}

// 1 where element i does not rise above the one before it, else 0; the first has none before it.
fn fall(list: &[u32], i: usize) -> usize
    requires { i < length list.now }
    ensures { (result ≡ fall_at list.now i) × (result ≤ 1) }
{
    if i == 0 {
        return 0;
    }
    if list[i - 1] < list[i] {
        return 0;
    }
    1
}

// How many elements do not rise above the one before them. They go by number, as windows of two took a quarter longer.
fn falls(list: &[u32]) -> usize
    ensures { result ≡ falls_in list.now 0 (length list.now) }
{
    let mut n: usize = 0;
    for i in 0..list.len() {
        n += fall(list, i);
    }
    n
}

// Where the elements of the positions end; nothing where they do not rise strictly on each page, which is that they fall
// only from one page to the next.
fn positions_rise(counts: &[u32], positions: &[u32]) -> Option<usize>
    requires { (total counts.now ≡ length positions.now) × (positive counts.now ≡ true) }
    ensures { Reached (in_order_by_page counts.now positions.now)
        (next 0 (placed 0 counts.now positions.now)) result }
{
    let mut base: usize = 0;
    let mut from: usize = 0;
    let mut seams: usize = 0;
    for &c in counts {
        seams += fall(positions, from);
        from += c as usize;
        base = (base + (positions[from - 1] as usize + 1)).min(LIMIT + 1);
    }
    let all = falls(positions);
    if all != seams {
        return None;
    }
    Some(base)
}

// Where the elements of the word's positions end; nothing where the word is not one that can be written.
pub fn check_word(n: usize, pages: &[u32], counts: &[u32], positions: &[u32]) -> Option<usize>
    ensures { Reached
        (valid_word n (lent_word pages.now counts.now positions.now))
        (next 0 (places (lent_word pages.now counts.now positions.now))) result }
{
    if pages.len() != counts.len() {
        return None;
    }
    if !rising::rises(n, pages) {
        return None;
    }
    if !counts_fit(counts, positions.len()) {
        return None;
    }
    positions_rise(counts, positions)
}
