// The check of a list block: the refusal that its bytes get, found in one pass over the words of its bits.
#![tactic(auto)]

ghost use Rattle.std.specs.Prelude.{◌≡◌, ◌≤◌};
ghost use Rattle.rules.specs.Limits.{map_version};
ghost use Rattle.rules.specs.Promises.{ListChecked};
ghost use Rattle.rules.specs.ReadList.{refusal_in, part_refusal};
ghost use Rattle.checklist.specs.Body.{Framing, BodyTold};

use rules::{LIMIT, LIST_HEADER, LIST_N_AT, LIST_U_AT, MAP_VERSION, Refusal, VERSION, VERSION_AT};
use shape::{BITMAP, Shape};

// Whether what follows the header of a block of shape g is that of a valid list.
fn body_ok(block: &[u8], g: Shape) -> bool
    requires { Framing g block.now }
    ensures { BodyTold block.now result }
{
    if g.w == BITMAP {
        return checkmap::map_ok(block, g);
    }
    if g.n == 0 {
        return true;
    }
    checkwords::runs_ok(block, g)
}

// The refusal of a list block as pages of an index of that version, where the versions of a list are 1 to `last`.
fn check_in(block: &[u8], last: u8, version: u32) -> Result<(), Refusal>
    requires { last ≤ map_version }
    ensures { result ≡ refusal_in last version block.now }
{
    parts::check_head(block, LIST_HEADER, last)?;
    let u = numbers::read_u32(block, LIST_U_AT) as usize;
    if LIMIT < u {
        return Err(Refusal::Limit);
    }
    let n = numbers::read_u32(block, LIST_N_AT) as usize;
    if u < n {
        return Err(Refusal::Layout);
    }
    let g = shape::pages_shape(version, u, n);
    if (block[VERSION_AT] == MAP_VERSION) != (g.w == BITMAP) {
        return Err(Refusal::Version);
    }
    if block.len() != g.end {
        return Err(Refusal::Layout);
    }
    if body_ok(block, g) {
        return Ok(());
    }
    Err(Refusal::Runs)
}

// The refusal of a list block that stands alone.
pub fn check_list(block: &[u8]) -> Result<(), Refusal>
    ensures { ListChecked block.now result }
{
    check_in(block, VERSION, VERSION as u32)
}

// The refusal of a list block in a term: of pages, in an index of that version; of counts and positions, version 1.
pub fn check_part(version: u32, block: &[u8]) -> Result<(), Refusal>
    ensures { result ≡ part_refusal version block.now }
{
    check_in(block, MAP_VERSION, version)
}
