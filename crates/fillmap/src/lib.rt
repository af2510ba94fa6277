// A bitmap written word by word from a rising list, and the pages of a word in either form.
#![tactic(auto)]

ghost use Rattle.std.specs.Prelude.{true, ◌≡◌, ◌+◌, ◌*◌, ◌<◌, ◌≤◌, length};
ghost use Rattle.rules.specs.List.{rising, map_block, bitmap};
ghost use Rattle.rules.specs.Write.{laid};
ghost use Rattle.listlaws.specs.Sound.{climbs};
ghost use Rattle.filllaws.specs.Filling.{Stored, FittingAs};
ghost use Rattle.fillmap.specs.Mapping.{word_of, Parted, SomeForm, Filled};

use rules::{LIST_HEADER, POINTER_SIZE};
use shape::{BITMAP, Shape};

// A word of a bitmap, and the number of the first element behind it.
#[derive(Clone, Copy)]
pub struct Gathered {
    pub word: u64,
    pub next: usize,
}

// Gathers word number k: the elements from number `from` on that fall into it.
fn gather(list: &[u32], from: usize, k: usize) -> Gathered
    requires { (climbs 0 list.now ≡ true) × Parted list.now (64 * k) from × (k < 4294967296) }
    ensures { (result.word ≡ word_of list.now k) × Parted list.now (64 * (k + 1)) result.next }
{
    let end = 64 * k + 64;
    let mut word = 0u64;
    for (i, &element) in list[from..].iter().enumerate() {
        let x = element as usize;
        if end <= x {
            return Gathered {
                word,
                next: from + i,
            };
        }
        word |= 1u64 << (x % 64);
    }
    Gathered {
        word,
        next: list.len(),
    }
}

// Writes the words from number `first` up to number `last`; gives the number of the first element behind them.
fn put_maps(
    room: &mut [u8],
    at: usize,
    list: &[u32],
    from: usize,
    first: usize,
    last: usize,
) -> usize
    requires { (climbs 0 list.now ≡ true) × Parted list.now (64 * first) from × (first ≤ last)
        × (last < 4294967296) × (at + 8 * last ≤ length room.old) }
    ensures { Parted list.now (64 * last) result
        × Stored 8 at (word_of list.now) first last room.old room.new }
{
    let mut next = from;
    for k in first..last {
        let p = gather(list, next, k);
        numbers::write_u64(room, at + 8 * k, p.word);
        next = p.next;
    }
    next
}

// Writes the bitmap's block of a rising list of g's size: behind each four words the number of elements so far.
pub fn fill_map(room: &mut [u8], g: Shape, list: &[u32])
    requires { FittingAs bitmap g room.old × (length list.now ≡ g.n) × (rising 0 g.u list.now ≡ true) }
    ensures { room.new ≡ laid (map_block g.u list.now) room.old }
{
    filling::put_header(room, g);
    let mut next: usize = 0;
    for q in 0..g.u / 256 {
        next = put_maps(room, g.upper, list, next, 4 * q, 4 * q + 4);
        numbers::write_u32(room, LIST_HEADER + POINTER_SIZE * q, next as u64);
    }
    put_maps(
        room,
        g.upper,
        list,
        next,
        4 * (g.u / 256),
        (g.end - g.upper) / 8,
    );
}

// Writes the block of a rising list of g's size, in the form of that shape.
pub fn fill_pages(room: &mut [u8], g: Shape, list: &[u32])
    requires { SomeForm g room.old × (length list.now ≡ g.n) × (rising 0 g.u list.now ≡ true) }
    ensures { Filled g list.now room.old room.new }
{
    if g.w == BITMAP {
        fill_map(room, g, list);
        return;
    }
    filling::fill(room, g, list);
}
