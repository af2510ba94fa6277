// Closing an index in a lent buffer: the terms that lie there are checked, and then the header is written before them.
#![tactic(auto)]

ghost use Rattle.std.specs.Prelude.{◌≡◌, ◌≤◌, length};
ghost use Rattle.rules.specs.Write.{laid};
ghost use Rattle.rules.specs.Index.{index_front, close_refusal};
ghost use Rattle.rules.specs.Promises.{IndexClosed};

use rules::{FOUR_BYTES, INDEX_HEADER, INDEX_N_AT, INDEX_T_AT, Refusal, VERSION_AT};

// The refusal of closing, before anything is written.
fn close_refusal(
    buffer: &[u8],
    used: usize,
    version: u32,
    n: usize,
    t: usize,
) -> Result<(), Refusal>
    ensures { result ≡ close_refusal buffer.now used version n t }
{
    if buffer.len() < used {
        return Err(Refusal::Room);
    }
    if used < INDEX_HEADER {
        return Err(Refusal::Short);
    }
    if !parts::known(version) {
        return Err(Refusal::Version);
    }
    if FOUR_BYTES <= used {
        return Err(Refusal::Limit);
    }
    checkindex::check_body(version, &buffer[INDEX_HEADER..used], t, n)
}

// Writes the header of an index of that version of `used` bytes.
fn write_front(buffer: &mut [u8], used: usize, version: u8, n: usize, t: usize)
    requires { 11 ≤ length buffer.old }
    ensures { buffer.new ≡ laid (index_front used version n t) buffer.old }
{
    numbers::write_u32(buffer, 0, used as u64);
    buffer[VERSION_AT] = version;
    numbers::write_u32(buffer, INDEX_N_AT, n as u64);
    numbers::write_u16(buffer, INDEX_T_AT, t as u64);
}

// Closes an index of that version of t terms of pages below n in the first `used` bytes: the first 11 are its header's.
pub fn close_index(
    buffer: &mut [u8],
    used: usize,
    version: u32,
    n: u32,
    t: u32,
) -> Result<usize, Refusal>
    ensures { IndexClosed buffer.old used version n t result buffer.new }
{
    close_refusal(buffer, used, version, n as usize, t as usize)?;
    write_front(buffer, used, version as u8, n as usize, t as usize);
    Ok(used)
}
