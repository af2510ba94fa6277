// A stretch of the next 256 elements of a word's lists: the sums of its counts, and the places of its positions.
#![tactic(auto)]

ghost use Rattle.std.specs.Prelude.{true, ◌≡◌, ◌+◌, ◌^◌, ◌≤◌, ◌<◌, length, take, drop, replicate};
ghost use Rattle.rules.specs.Limits.{limit};
ghost use Rattle.rules.specs.Term.{total, sums, positive};
ghost use Rattle.wordlaws.specs.Stretch.{headed, marks_of, base_at, Marked, Bounded, Based};
ghost use Rattle.wordlaws.specs.Stretch.{NextSums, FirstSpot, HasSpot, NextPlaces};

use wordlaws::{Spot, Tally, Turn};

// Puts the sums of the counts, less 1, into the part, where `before` is the sum of those before them; gives the sum.
fn put_sums(part: &mut [u32; 256], before: usize, counts: &[u32]) -> usize
    requires { (length counts.now ≤ 256) × (positive counts.now ≡ true)
        × (before + total counts.now ≤ limit) }
    ensures { (result ≡ before + total counts.now)
        × (take (length counts.now) part.new ≡ sums before counts.now) }
{
    let mut sum = before;
    for (i, &c) in counts.iter().enumerate() {
        sum += c as usize;
        part[i] = (sum - 1) as u32;
    }
    sum
}

// Puts the sums of the next 256 counts, less 1, into the part; gives where the ones behind them start.
pub fn next_sums(part: &mut [u32; 256], counts: &[u32], at: Tally) -> Tally
    requires { (at.done ≤ length counts.now) × (length counts.now ≤ limit)
        × (positive counts.now ≡ true) × (at.sum + total (drop at.done counts.now) ≤ limit) }
    ensures { NextSums counts.now at result part.new }
{
    let from = at.done;
    let to = from + (counts.len() - from).min(256);
    let sum = put_sums(part, at.sum, &counts[from..to]);
    Tally { done: to, sum }
}

// Where the first page ends; 1 where there is none.
fn first_end(counts: &[u32]) -> usize
    ensures { (headed result counts.now ≡ counts.now) × (result ≤ 2 ^ 32)
        × (positive counts.now ≡ true → 0 < result) }
{
    if counts.len() == 0 {
        return 1;
    }
    counts[0] as usize
}

// Marks with 1 which of 256 positions are the last of their page; gives the page that the next 256 start on.
fn mark(part: &mut [u32; 256], counts: &[u32], start: Turn) -> Turn
    requires { (part.old ≡ replicate 256 0) × (start.page < length counts.now) × (0 < start.end)
        × (start.end ≤ 2 ^ 32) × (positive counts.now ≡ true) }
    ensures { Marked counts.now start result part.new }
{
    let mut page = start.page;
    let mut end = start.end;
    // A step is a page's count: no iterator gives it.
    while end <= 256 {
        part[end - 1] = 1;
        page += 1;
        if page == counts.len() {
            return Turn { page, end };
        }
        end += counts[page] as usize;
    }
    Turn {
        page,
        end: end - 256,
    }
}

// Puts elements in the place of marks, each its position above its page's base; gives the base behind them.
fn put_places(part: &mut [u32; 256], start: usize, positions: &[u32]) -> usize
    requires { (length positions.now ≤ 256) × Bounded start part.old positions.now }
    ensures { (result
        ≡ base_at start (marks_of part.old) positions.now (length positions.now))
        × Based start part.old positions.now part.new }
{
    let mut base = start;
    for (i, &position) in positions.iter().enumerate() {
        let p = position as usize;
        let step = part[i] as usize * (p + 1);
        part[i] = (base + p) as u32;
        base += step;
    }
    base
}

// Where the first positions start, on a page with this base.
pub fn first_spot(counts: &[u32], base: usize) -> Spot
    ensures { FirstSpot base counts.now result }
{
    Spot {
        done: 0,
        turn: Turn {
            page: 0,
            end: first_end(counts),
        },
        base,
    }
}

// Puts the elements of the next 256 positions into the part; gives where the ones behind them start.
pub fn next_places(part: &mut [u32; 256], counts: &[u32], positions: &[u32], at: Spot) -> Spot
    requires { (part.old ≡ replicate 256 0) × (at.done < length positions.now)
        × HasSpot counts.now positions.now at }
    ensures { NextPlaces counts.now positions.now at result part.new }
{
    let done = at.done;
    let k = (positions.len() - done).min(256);
    let turn = mark(part, counts, at.turn);
    let base = put_places(part, at.base, &positions[done..done + k]);
    Spot {
        done: done + k,
        turn,
        base,
    }
}
