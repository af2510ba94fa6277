// Big-endian numbers of two, four and eight bytes, read and stored, each by one load or store. There is a function for
// each size, as the library converts bytes by a function of each type: one over the size would be no plainer.
#![tactic(auto)]

ghost use Rattle.std.specs.Prelude.{◌≡◌, ◌+◌, ◌^◌, ◌<◌, ◌≤◌, length};
ghost use Rattle.std.proofs.lemmas.List.Edits.{sets};
ghost use Rattle.rules.specs.Bytes.{be, be_at};

// The number that two bytes hold.
pub fn read_u16(s: &[u8], at: usize) -> u64
    requires { at + 2 ≤ length s.now }
    ensures { (result ≡ be_at 2 s.now at) × (result < 2 ^ 16) }
{
    u64::from(u16::from_be_bytes(s[at..at + 2].try_into().unwrap()))
}

// The number that four bytes hold.
pub fn read_u32(s: &[u8], at: usize) -> u64
    requires { at + 4 ≤ length s.now }
    ensures { (result ≡ be_at 4 s.now at) × (result < 2 ^ 32) }
{
    u64::from(u32::from_be_bytes(s[at..at + 4].try_into().unwrap()))
}

// The number that eight bytes hold.
pub fn read_u64(s: &[u8], at: usize) -> u64
    requires { at + 8 ≤ length s.now }
    ensures { result ≡ be_at 8 s.now at }
{
    u64::from_be_bytes(s[at..at + 8].try_into().unwrap())
}

// Stores what of v two bytes hold.
pub fn write_u16(d: &mut [u8], at: usize, v: u64)
    requires { at + 2 ≤ length d.old }
    ensures { d.new ≡ sets d.old at (be 2 v) }
{
    d[at..at + 2].copy_from_slice(&((v & 0xffff) as u16).to_be_bytes());
}

// Stores what of v four bytes hold.
pub fn write_u32(d: &mut [u8], at: usize, v: u64)
    requires { at + 4 ≤ length d.old }
    ensures { d.new ≡ sets d.old at (be 4 v) }
{
    d[at..at + 4].copy_from_slice(&((v & 0xffff_ffff) as u32).to_be_bytes());
}

// Stores v as eight bytes.
pub fn write_u64(d: &mut [u8], at: usize, v: u64)
    requires { at + 8 ≤ length d.old }
    ensures { d.new ≡ sets d.old at (be 8 v) }
{
    d[at..at + 8].copy_from_slice(&v.to_be_bytes());
}
