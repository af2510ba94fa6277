// The search on a bitmap: from the bound's own bit on, word by word, to the first one.
#![tactic(auto)]

ghost use Rattle.std.specs.Prelude.{◌≡◌, ◌+◌, ◌/◌, ◌%◌, ◌^◌, ◌<◌, ◌≤◌};
ghost use Rattle.rules.specs.Runs.{run_word};
ghost use Rattle.rules.specs.List.{bitmap};
ghost use Rattle.readlaws.specs.Open.{MapOpen};
ghost use Rattle.walklaws.specs.Walks.{Paid, Landed, landing_word};

use shape::Shape;
use walklaws::Landing;

// The end of a search that found the page: the mark is one more, and the bit is the page itself.
fn on_page(page: usize) -> Landing
    requires { page < 2 ^ 27 }
    ensures { (result.mark ≡ page + 1) × (result.bit ≡ page) }
{
    Landing {
        mark: (page + 1) as u32,
        bit: page,
    }
}

// Where the word of bit b has no page from b on: looks at the next, and while it has none at the one after, up to the
// last; the first one is the page.
fn find_behind(s: &[u8], g: Shape, b: usize, looks: &mut u32) -> Landing
    requires { MapOpen s.now g × (b < g.u) × (looks.old ≤ 2 ^ 31 + b / 64)
        × (run_word s.now g.upper (b / 64) / 2 ^ (b % 64) ≡ 0) }
    ensures { Landed bitmap s.now b result
        × Paid (b / 64) looks.old (landing_word bitmap s.now b) looks.new }
{
    let last = (g.bits - 1) / 64;
    let mut left = 0;
    let mut k = b / 64;
    while left == 0 {
        if k == last {
            return landing::none();
        }
        let at = looks::next_word(s, g, k, 0, looks);
        left = at.left;
        k = at.k;
    }
    on_page(64 * k + u64::trailing_zeros(left) as usize)
}

// Looks at the word of bit b, and while no one is left at the next, up to the last; the first one that is left is the
// page. Where b itself is likely to be one its bit is tested first, so that what comes next need not wait for the word.
pub fn find_in_map(s: &[u8], g: Shape, b: usize, likely: bool, looks: &mut u32) -> Landing
    requires { MapOpen s.now g × (b < g.u) × (looks.old < 2 ^ 31) }
    ensures { Landed bitmap s.now b result
        × Paid (b / 64) (looks.old + 1) (landing_word bitmap s.now b) looks.new }
{
    let word = looks::look(s, g.upper, b / 64, looks);
    let rest = word >> (b % 64);
    if likely && rest % 2 == 1 {
        return on_page(b);
    }
    if rest != 0 {
        return on_page(b + u64::trailing_zeros(rest) as usize);
    }
    find_behind(s, g, b, looks)
}
