// The check of a term block: the refusal that its bytes get, with each list handed on as the part of the block that it
// is.
#![tactic(auto)]

ghost use Rattle.std.specs.Prelude.{◌≡◌, ◌≤◌, length, drop};
ghost use Rattle.rules.specs.Limits.{list_header};
ghost use Rattle.rules.specs.ReadList.{part_refusal};
ghost use Rattle.rules.specs.Parts.{inside};
ghost use Rattle.rules.specs.ReadTerm.{lists_of};
ghost use Rattle.rules.specs.Promises.{TermChecked};
ghost use Rattle.checkterm.specs.Lists.{lists_refusal, rest_refusal, ListsIn};

use rules::{LIST_HEADER, LISTS_AT, Refusal, TERM_HEADER, VERSION};

// The refusal of the list block at byte `at`, where the bytes behind it are what remains of the term.
fn check_list_at(version: u32, block: &[u8], at: usize) -> Result<(), Refusal>
    requires { at ≤ length block.now }
    ensures { result ≡ inside list_header (part_refusal version) (drop at block.now) }
{
    parts::check_front(block, at, LIST_HEADER)?;
    checklist::check_part(version, parts::part_at(block, at))
}

// The first refusal of the three lists; pages alone may have the form that a later version of an index gives them.
fn check_lists(version: u32, block: &[u8]) -> Result<(), Refusal>
    requires { 5 ≤ length block.now }
    ensures { result ≡ lists_refusal version 3 (lists_of block.now) }
{
    let mut told = version;
    let mut at = LISTS_AT;
    for _ in 0..3usize {
        check_list_at(told, block, at)?;
        at += numbers::read_u32(block, at) as usize;
        told = VERSION as u32;
    }
    Ok(())
}

// The refusal of what follows the lists: bytes left over, and then lists that disagree.
fn check_rest(version: u32, block: &[u8]) -> Result<(), Refusal>
    requires { ListsIn version block.now }
    ensures { result ≡ rest_refusal block.now }
{
    let rest = parts::blocks_from(block, LISTS_AT, 2);
    let positions = parts::part_at(rest, 0);
    if positions.len() < rest.len() {
        return Err(Refusal::Layout);
    }
    let pages = parts::block_of(block, LISTS_AT, 0);
    let counts = parts::block_of(block, LISTS_AT, 1);
    if agreeing::disagree(pages, counts, positions) {
        return Err(Refusal::Parts);
    }
    Ok(())
}

// The refusal of a term block of an index of that version.
pub fn check_term(version: u32, block: &[u8]) -> Result<(), Refusal>
    ensures { TermChecked version block.now result }
{
    parts::check_head(block, TERM_HEADER, VERSION)?;
    if !parts::known(version) {
        return Err(Refusal::Version);
    }
    check_lists(version, block)?;
    check_rest(version, block)
}
