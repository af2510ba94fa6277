// Elements laid into a block one after the other: each above those before it.
#![tactic(auto)]

ghost use Rattle.std.specs.Prelude.{◌+◌, ◌-◌, ◌*◌, ◌/◌, ◌^◌, ◌<◌, ◌≤◌, length, drop};
ghost use Rattle.filllaws.specs.Filling.{Ready, OneMore, Open, Laid};

use filllaws::{Filling, Ups};
use shape::Shape;

// Lays x, which is above the elements laid so far.
fn put(room: &mut [u8], g: Shape, f: Filling, x: usize) -> Filling
    requires { Ready g f x room.old }
    ensures { OneMore g f x result room.old room.new }
{
    let lows = storing::put_low(room, g.lower, g.w, f.lows, x);
    let high = x >> g.w;
    let next = storing::put_pointers(room, f.ups.next, high, f.count);
    let place = high + f.count;
    let word = storing::put_words(room, g.upper, f.ups.words, place / 64, f.ups.acc);
    let stop = (64 * (place / 64) + 64).min(256 * next + f.count);
    Filling {
        count: f.count + 1,
        lows,
        ups: Ups {
            acc: word + (1u64 << (place % 64)),
            words: place / 64,
            next,
            stop,
        },
    }
}

// Lays x, whose one lies below the stop.
fn put_near(room: &mut [u8], g: Shape, f: Filling, x: usize) -> Filling
    requires { Ready g f x room.old × (x / 2 ^ g.w + f.count < f.ups.stop) }
    ensures { OneMore g f x result room.old room.new }
{
    let lows = storing::put_low(room, g.lower, g.w, f.lows, x);
    let place = (x >> g.w) + f.count;
    Filling {
        count: f.count + 1,
        lows,
        ups: Ups {
            acc: f.ups.acc | (1u64 << (place % 64)),
            words: f.ups.words,
            next: f.ups.next,
            stop: f.ups.stop,
        },
    }
}

// Lays the elements from number `from` on whose ones lie below the stop. They go by number, as those of a slice took a
// quarter longer.
fn lay_near(room: &mut [u8], g: Shape, start: Filling, list: &[u32], from: usize) -> Filling
    requires { (from ≤ length list.now) × Open g start (drop from list.now) room.old }
    ensures { (start.count ≤ result.count) × (result.count ≤ start.count + (length list.now - from))
        × Laid g start (drop from list.now) (result.count - start.count) result room.old
        room.new }
{
    let mut f = start;
    for i in from..list.len() {
        let x = list[i] as usize;
        if f.ups.stop <= (x >> g.w) + f.count {
            return f;
        }
        f = put_near(room, g, f, x);
    }
    f
}

// Lays all elements of the list, which are above those laid so far.
pub fn lay(room: &mut [u8], g: Shape, start: Filling, list: &[u32]) -> Filling
    requires { Open g start list.now room.old }
    ensures { Laid g start list.now (length list.now) result room.old
        room.new }
{
    let mut f = start;
    let mut i: usize = 0;
    // A step is as many as were laid: no iterator gives it.
    while i < list.len() {
        f = put(room, g, f, list[i] as usize);
        f = lay_near(room, g, f, list, i + 1);
        i = f.count - start.count;
    }
    f
}
