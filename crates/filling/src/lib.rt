// A block begun, filled and finished: the steps by which every writer lays its elements.
#![tactic(auto)]

ghost use Rattle.std.specs.Prelude.{true, ◌≡◌, [], ◌-◌, ◌/◌, ◌≤◌, length};
ghost use Rattle.rules.specs.List.{rising, block};
ghost use Rattle.rules.specs.Write.{laid};
ghost use Rattle.filllaws.specs.Filling.{Fitting, VersionOf, Header, Partly, Full, Closed};

use filllaws::{Filling, Lows, Ups};
use rules::{LIST_N_AT, LIST_U_AT, MAP_VERSION, VERSION, VERSION_AT};
use shape::{BITMAP, Shape};

// The version of a list of shape g.
fn version_of(g: Shape) -> u8
    ensures { VersionOf g result }
{
    if g.w == BITMAP {
        return MAP_VERSION;
    }
    VERSION
}

// Writes the header of a block of shape g, in either form.
pub fn put_header(room: &mut [u8], g: Shape)
    requires { 13 ≤ length room.old }
    ensures { Header g room.old room.new }
{
    let version = version_of(g);
    numbers::write_u32(room, 0, g.end as u64);
    room[VERSION_AT] = version;
    numbers::write_u32(room, LIST_U_AT, g.u as u64);
    numbers::write_u32(room, LIST_N_AT, g.n as u64);
}

// Begins a block of shape g: its header is written, and no element is laid yet.
pub fn begin(room: &mut [u8], g: Shape) -> Filling
    requires { Fitting g room.old }
    ensures { Partly g [] result room.old room.new }
{
    put_header(room, g);
    Filling {
        count: 0,
        lows: Lows::default(),
        ups: Ups {
            acc: 0,
            words: 0,
            next: 1,
            stop: 64,
        },
    }
}

// Writes what is in hand when all elements are laid: the last words, and the pointers behind the last element.
pub fn finish(room: &mut [u8], g: Shape, f: Filling)
    requires { Full g f room.old }
    ensures { Closed g f room.old room.new }
{
    storing::put_words(
        room,
        g.lower,
        f.lows.words,
        (g.upper - g.lower) / 8,
        f.lows.acc,
    );
    storing::put_pointers(room, f.ups.next, g.bits - g.n, f.count);
    storing::put_words(room, g.upper, f.ups.words, (g.end - g.upper) / 8, f.ups.acc);
}

// Writes the block of a rising list of g's size.
pub fn fill(room: &mut [u8], g: Shape, list: &[u32])
    requires { Fitting g room.old × (length list.now ≡ g.n) × (rising 0 g.u list.now ≡ true) }
    ensures { room.new ≡ laid (block g.u list.now) room.old }
{
    let start = begin(room, g);
    let f = laying::lay(room, g, start, list);
    finish(room, g, f);
}
