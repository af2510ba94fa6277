// Whether the three lists of a term agree.
#![tactic(auto)]

ghost use Rattle.std.specs.Prelude.{◌≡◌, ◌≤◌, length};
ghost use Rattle.rules.specs.Verdict.{Accepted};
ghost use Rattle.rules.specs.ReadList.{decode, list_refusal};
ghost use Rattle.rules.specs.Term.{next};
ghost use Rattle.agreeing.specs.Agreeing.{disagreeing};

use rules::{LIST_N_AT, LIST_U_AT};

// The last element plus 1, or 0 where there is none.
fn next_of(list: &[u8]) -> usize
    requires { list_refusal list.now ≡ Accepted }
    ensures { result ≡ next 0 (decode list.now) }
{
    let g = reading::shape_at(list);
    if g.n == 0 {
        return 0;
    }
    nearones::last_of(list, g) + 1
}

// Whether the three lists of a term disagree.
pub fn disagree(pages: &[u8], counts: &[u8], positions: &[u8]) -> bool
    requires { (13 ≤ length pages.now) × (list_refusal counts.now ≡ Accepted)
        × (list_refusal positions.now ≡ Accepted) }
    ensures { result ≡ disagreeing pages.now counts.now positions.now }
{
    if numbers::read_u32(counts, LIST_N_AT) != numbers::read_u32(pages, LIST_N_AT) {
        return true;
    }
    let total = numbers::read_u32(counts, LIST_U_AT);
    if total as usize != next_of(counts) {
        return true;
    }
    if numbers::read_u32(positions, LIST_N_AT) != total {
        return true;
    }
    numbers::read_u32(positions, LIST_U_AT) as usize != next_of(positions)
}
