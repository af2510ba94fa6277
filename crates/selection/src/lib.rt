// The place of a word's one by its number, from the counts of its bytes and the table of a byte's ones.
#![tactic(auto)]

ghost use Rattle.std.specs.Prelude.{◌≡◌, ◌+◌, ◌*◌, ◌/◌, ◌%◌, ◌^◌, ◌<◌, count_ones};
ghost use Rattle.fields.specs.Words.{place_of_one, place_of_zero};
ghost use Rattle.selectlaws.specs.ByteCounts.{each, byte_ones, running_ones, highest_byte, marked};

use bytetable::Table;
use std::num::wrapping_add_u64;

// How many ones each byte has.
fn byte_counts(x: u64) -> u64
    ensures { result ≡ byte_ones 8 x }
{
    let pairs = x - ((x >> 1) & 0x5555555555555555);
    let halves = (pairs & 0x3333333333333333) + ((pairs >> 2) & 0x3333333333333333);
    (halves + (halves >> 4)) & 0x0F0F0F0F0F0F0F0F
}

// Each byte with those below it added.
fn summed(counts: u64) -> u64
    ensures { result ≡ counts * each 8 1 % 2 ^ 64 }
{
    let two = wrapping_add_u64(counts, counts << 8);
    let four = wrapping_add_u64(two, two << 16);
    wrapping_add_u64(four, four << 32)
}

// How many ones each byte has with the bytes below it.
pub fn running_counts(x: u64) -> u64
    ensures { result ≡ running_ones 8 0 x }
{
    summed(byte_counts(x))
}

// How many ones a word has: the highest of its running counts.
pub fn total(counts: u64) -> u64
    ensures { result ≡ highest_byte counts }
{
    counts >> 56
}

// The highest bit of each byte that is above j.
fn above(sums: u64, j: u32) -> u64
    requires { j < 64 }
    ensures { result ≡ marked 8 sums j }
{
    ((sums | 0x8080808080808080) - (j as u64 + 1) * 0x0101010101010101) & 0x8080808080808080
}

// The place of the one number j, counted from 0, of a byte, or 8, by the table.
fn one_of_byte(table: &Table, b: u8, j: u32) -> u32
    requires { j < 8 }
    ensures { result ≡ place_of_one 8 b j }
{
    table.rows[b as usize * 8 + j as usize] as u32
}

// The place of the one number j, counted from 0, of a word that has more ones, by its running counts.
pub fn select_by(table: &Table, x: u64, counts: u64, j: u32) -> u32
    requires { (counts ≡ running_ones 8 0 x) × (j < count_ones x) }
    ensures { (result ≡ place_of_one 64 x j) × (result < 64) }
{
    let p = u64::trailing_zeros(above(counts, j)) - 7;
    let before = (((counts << 8) >> p) & 255) as u32;
    p + one_of_byte(table, ((x >> p) & 255) as u8, j - before)
}

// The place of the zero number j, counted from 0, of a word that has more zeros, by the running counts of its ones:
// what these leave of eight bits for each byte are those of its zeros.
pub fn select_zero(table: &Table, x: u64, counts: u64, j: u32) -> u32
    requires { (counts ≡ running_ones 8 0 x) × (j + count_ones x < 64) }
    ensures { (result ≡ place_of_zero 64 x j) × (result < 64) }
{
    select_by(table, !x, 0x4038302820181008 - counts, j)
}
