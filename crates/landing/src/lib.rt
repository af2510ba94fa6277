// From one to one of an upper run to the first element at or above the bound.
#![tactic(auto)]

ghost use Rattle.std.specs.Prelude.{◌≡◌, ◌+◌, ◌*◌, ◌^◌, ◌≤◌, ◌<◌, get_or};
ghost use Rattle.rules.specs.Runs.{field};
ghost use Rattle.rules.specs.List.{two_runs};
ghost use Rattle.rules.specs.ReadList.{decode};
ghost use Rattle.readlaws.specs.Open.{Open, OneAt};
ghost use Rattle.walklaws.specs.Cursors.{spent_mark};
ghost use Rattle.walklaws.specs.Walks.{Before, Paid, Walking};
ghost use Rattle.walklaws.specs.Walks.{Landed, landing_word};

use shape::Shape;
use walklaws::{Landing, Ones, SPENT};

// The end where there is no element at or above the bound.
pub fn none() -> Landing
    ensures { (result.mark ≡ spent_mark) × (result.bit ≡ 0) }
{
    Landing {
        mark: SPENT,
        bit: 0,
    }
}

// The low part of the element of that rank, by words of the lower run alone. It is read here, and not by
// `reading::value_at`: that has more callers and stays a call of its own, which a walk over ones waits for.
fn low_part(s: &[u8], g: Shape, rank: usize) -> usize
    requires { Open s.now g × (rank < g.n) }
    ensures { (result ≡ field s.now g.lower (rank * g.w) g.w) × (result < 2 ^ 24) }
{
    if g.w == 0 {
        return 0;
    }
    let lower = g.lower;
    let upper = g.upper;
    let run = &s[lower..upper];
    let o = rank * g.w;
    let k = o / 64;
    let place = o % 64;
    let word = runs::run_word(run, 0, k);
    if 64 < place + g.w {
        return fields::field_of(word, runs::run_word(run, 0, k + 1), place, g.w) as usize;
    }
    fields::field_of(word, 0, place, g.w) as usize
}

// The element whose one stands at that bit with `rank` ones below it.
fn page_at(s: &[u8], g: Shape, bit: usize, rank: usize) -> usize
    requires { Open s.now g × OneAt s.now g.upper rank bit }
    ensures { result ≡ get_or (decode s.now) rank 0 }
{
    ((bit - rank) << g.w) + low_part(s, g, rank)
}

// Walks from one to one to the first element at or above b.
pub fn land(s: &[u8], g: Shape, b: usize, from: Ones, looks: &mut u32) -> Landing
    requires { Open s.now g × Walking s.now g from × Before s.now b from.rank
        × (looks.old ≤ 2 ^ 31 + from.k) }
    ensures { Landed two_runs s.now b result
        × Paid from.k looks.old (landing_word two_runs s.now b) looks.new }
{
    let mut at = from;
    while at.left != 0 || at.rank < g.n {
        let one = looks::to_one(s, g, at, looks);
        let bit = 64 * one.k + u64::trailing_zeros(one.left) as usize;
        let page = page_at(s, g, bit, one.rank);
        if b <= page {
            return Landing {
                mark: (page + 1) as u32,
                bit,
            };
        }
        let next = Ones {
            left: one.left & (one.left - 1),
            k: one.k,
            rank: one.rank + 1,
        };
        at = next;
    }
    looks::to_end(s, g, at.k, looks);
    none()
}
