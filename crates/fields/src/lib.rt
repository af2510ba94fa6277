// Fields of bits in words, and the bits and ones on one side of a place, for every width and place.
#![tactic(auto)]

ghost use Rattle.std.specs.Prelude.{◌≡◌, ◌+◌, ◌*◌, ◌/◌, ◌%◌, ◌^◌, ◌<◌, ◌≤◌};
ghost use Rattle.std.specs.Int.Count.{ones};

// The w bits from bit b on of two words, of which hi lies above lo.
pub fn field_of(lo: u64, hi: u64, b: usize, w: usize) -> u64
    requires { (b < 64) × (w ≤ 32) }
    ensures { result ≡ (hi * 2 ^ 64 + lo) / 2 ^ b % 2 ^ w }
{
    let mask = (1u64 << w) - 1;
    if b + w <= 64 {
        return (lo >> b) & mask;
    }
    ((lo >> b) | (hi << (64 - b))) & mask
}

// A word that is full, and what goes on into the next: two words of one type, which the names tell apart.
#[derive(Clone, Copy)]
pub struct Pair {
    pub lo: u64,
    pub hi: u64,
}

// The w bits v laid above the b bits acc.
pub fn place(acc: u64, b: usize, w: usize, v: u64) -> Pair
    requires { (b < 64) × (w ≤ 32) × (v < 2 ^ w) × (acc < 2 ^ b) }
    ensures { result.hi * 2 ^ 64 + result.lo ≡ v * 2 ^ b + acc }
{
    let lo = acc | (v << b);
    if b + w <= 64 {
        return Pair { lo, hi: 0 };
    }
    Pair {
        lo,
        hi: v >> (64 - b),
    }
}

// The word with 0 for its j low bits.
pub fn from_bit(x: u64, j: usize) -> u64
    requires { j < 64 }
    ensures { result ≡ x / 2 ^ j * 2 ^ j }
{
    (x >> j) << j
}

// How many of the j low bits are ones.
pub fn ones_below(x: u64, j: usize) -> u32
    requires { j ≤ 64 }
    ensures { (result ≡ ones (x % 2 ^ j)) × (result ≤ j) }
{
    if j == 64 {
        return u64::count_ones(x);
    }
    u64::count_ones(x & ((1u64 << j) - 1))
}
