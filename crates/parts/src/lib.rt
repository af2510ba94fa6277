// Blocks in the bytes that hold them: the tests that every block's header gets, and the walk from block to block.
#![tactic(auto)]

ghost use Rattle.std.specs.Prelude.{◌≡◌, ◌≤◌, length, take, drop};
ghost use Rattle.rules.specs.Limits.{last_edition, up_to};
ghost use Rattle.rules.specs.Bytes.{be_at};
ghost use Rattle.rules.specs.Parts.{after, part};
ghost use Rattle.laws.specs.Blocks.{block_at};
ghost use Rattle.parts.specs.Places.{head_refusal, front_refusal, Held, Walkable};

use rules::{LAST_EDITION, Refusal, VERSION_AT};

// Whether an index may have that version.
pub fn known(version: u32) -> bool
    ensures { result ≡ up_to last_edition version }
{
    if version == 0 {
        return false;
    }
    version <= LAST_EDITION
}

// The first three tests of a block whose header has h bytes: bytes enough, their number stated, and a version of 1 to
// `last`.
pub fn check_head(block: &[u8], h: usize, last: u8) -> Result<(), Refusal>
    requires { 5 ≤ h }
    ensures { result ≡ head_refusal h last block.now }
{
    if block.len() < h {
        return Err(Refusal::Short);
    }
    if numbers::read_u32(block, 0) as usize != block.len() {
        return Err(Refusal::Length);
    }
    if block[VERSION_AT] == 0 {
        return Err(Refusal::Version);
    }
    if last < block[VERSION_AT] {
        return Err(Refusal::Version);
    }
    Ok(())
}

// Whether the block at byte `at`, whose header has h bytes, lies within the bytes.
pub fn check_front(s: &[u8], at: usize, h: usize) -> Result<(), Refusal>
    requires { (at ≤ length s.now) × (4 ≤ h) }
    ensures { result ≡ front_refusal h (drop at s.now) }
{
    let left = s.len() - at;
    if left < h {
        return Err(Refusal::Short);
    }
    let size = numbers::read_u32(s, at) as usize;
    if size < h {
        return Err(Refusal::Length);
    }
    if left < size {
        return Err(Refusal::Length);
    }
    Ok(())
}

// The block at byte `at`.
pub fn part_at(s: &[u8], at: usize) -> &[u8]
    requires { Held at s.now }
    ensures { result.now ≡ take (be_at 4 s.now at) (drop at s.now) }
{
    let to = at + numbers::read_u32(s, at) as usize;
    &s[at..to]
}

// The bytes from block number k on, found by the lengths that the blocks before it state; the first starts at byte
// `from`. What is left is walked as a part of its own, so that each length is read at its front.
pub fn blocks_from(s: &[u8], from: usize, k: usize) -> &[u8]
    requires { Walkable from k s.now }
    ensures { result.now ≡ after k (drop from s.now) }
{
    let mut rest = &s[from..];
    for _ in 0..k {
        let size = numbers::read_u32(rest, 0) as usize;
        rest = &rest[size..];
    }
    rest
}

// Where block number k starts.
fn block_start(s: &[u8], from: usize, k: usize) -> usize
    requires { Walkable from k s.now }
    ensures { result ≡ block_at from k s.now }
{
    s.len() - blocks_from(s, from, k).len()
}

// Block number k itself.
pub fn block_of(s: &[u8], from: usize, k: usize) -> &[u8]
    requires { Walkable from k s.now }
    ensures { result.now ≡ part k (drop from s.now) }
{
    part_at(s, block_start(s, from, k))
}
