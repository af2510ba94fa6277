// A session's tests and its ends: what may be announced, whether it goes on, and the block that it writes.
#![tactic(auto)]

ghost use Rattle.std.specs.Prelude.{true, ◌≡◌, ◌≤◌, length, replicate};
ghost use Rattle.rules.specs.Write.{laid};
ghost use Rattle.rules.specs.Stream.{announce_refusal, live, over};
ghost use Rattle.sessionlaws.specs.Layout.{layout_of, Announcing, LaidOut};

use rules::{LIMIT, LISTS_AT, Refusal, Stream, Streamed};
use sessionlaws::Layout;
use shape::Shape;

// The refusal of an announcement, before room.
pub fn announce(
    version: u32,
    n: usize,
    pages: usize,
    positions: usize,
    u: usize,
) -> Result<(), Refusal>
    ensures { result ≡ announce_refusal version n pages positions u }
{
    if !parts::known(version) {
        return Err(Refusal::Version);
    }
    if LIMIT < n {
        return Err(Refusal::Limit);
    }
    if LIMIT < u {
        return Err(Refusal::Limit);
    }
    if n < pages {
        return Err(Refusal::Lists);
    }
    if positions < pages {
        return Err(Refusal::Lists);
    }
    if u < positions {
        return Err(Refusal::Lists);
    }
    if pages == 0 {
        if 0 < u {
            return Err(Refusal::Lists);
        }
    }
    Ok(())
}

// Whether a session goes on.
pub fn is_live(s: Stream) -> bool
    ensures { result ≡ live s }
{
    if s.mark != 1 {
        return false;
    }
    if s.pages < s.laid {
        return false;
    }
    if s.positions < s.filled {
        return false;
    }
    announce(
        s.version,
        s.n as usize,
        s.pages as usize,
        s.positions as usize,
        s.u as usize,
    )
    .is_ok()
}

// The block that an announcement gives, whose lists have these shapes: with the shapes worked out apart each part is
// small enough to be compiled into a call that keeps the layout in registers.
pub fn layout(first: Shape, counts: Shape, last: Shape) -> Layout
    requires { Announcing first counts last }
    ensures { LaidOut first counts last result }
{
    let second = LISTS_AT + first.end;
    let third = second + counts.end;
    Layout {
        pages: first,
        counts,
        positions: last,
        second,
        third,
        size: third + last.end,
    }
}

// The block that a session writes.
pub fn layout_of(s: Stream) -> Layout
    requires { live s ≡ true }
    ensures { result ≡ layout_of s.version s.n s.pages s.positions s.u }
{
    let first = shape::pages_shape(s.version, s.n as usize, s.pages as usize);
    let counts = shape::shape_of(s.positions as usize, s.pages as usize);
    let last = shape::shape_of(s.u as usize, s.positions as usize);
    layout(first, counts, last)
}

// A refusal that ends the session, or its success.
pub fn ended(size: Result<usize, Refusal>) -> Streamed
    ensures { (result.size ≡ size) × (result.stream ≡ over) }
{
    Streamed {
        size,
        stream: Stream::default(),
    }
}

// Clears the first bytes of the room.
pub fn clear(room: &mut [u8], size: usize)
    requires { size ≤ length room.old }
    ensures { room.new ≡ laid (replicate size 0) room.old }
{
    room[..size].fill(0);
}
