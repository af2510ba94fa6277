// The announcement of a word: the host's call. All headers are written, and the rest of the block is cleared.
#![tactic(auto)]

ghost use Rattle.std.specs.Prelude.{◌≡◌};
ghost use Rattle.rules.specs.Stream.{opened};
ghost use Rattle.rules.specs.Promises.{TermBegun};
ghost use Rattle.sessionlaws.specs.Layout.{Roomed, FramesPut};

use rules::{LISTS_AT, Refusal, Stream, Streamed, VERSION, VERSION_AT};
use sessionlaws::Layout;

// Writes the block of which no element is laid.
fn put_frames(room: &mut [u8], g: Layout)
    requires { Roomed g room.old }
    ensures { FramesPut g room.old room.new }
{
    sessions::clear(room, g.size);
    numbers::write_u32(room, 0, g.size as u64);
    room[VERSION_AT] = VERSION;
    filling::put_header(&mut room[LISTS_AT..], g.pages);
    filling::put_header(&mut room[g.second..], g.counts);
    filling::put_header(&mut room[g.third..], g.positions);
}

// The session that an announcement opens.
fn opened(version: u32, n: u32, pages: u32, positions: u32, u: u32) -> Stream
    ensures { result ≡ opened version n pages positions u }
{
    Stream {
        mark: 1,
        version,
        n,
        pages,
        positions,
        u,
        ..Stream::default()
    }
}

// Announces a word on so many pages below n, with so many positions, whose elements end at u, for an index of that
// version.
pub fn begin_term(
    version: u32,
    n: u32,
    pages: u32,
    positions: u32,
    u: u32,
    room: &mut [u8],
) -> Streamed
    ensures { TermBegun version n pages positions u room.old result room.new }
{
    let announced = sessions::announce(
        version,
        n as usize,
        pages as usize,
        positions as usize,
        u as usize,
    );
    if let Err(refusal) = announced {
        return sessions::ended(Err(refusal));
    }
    let first = shape::pages_shape(version, n as usize, pages as usize);
    let counts = shape::shape_of(positions as usize, pages as usize);
    let last = shape::shape_of(u as usize, positions as usize);
    let g = sessions::layout(first, counts, last);
    if room.len() < g.size {
        return sessions::ended(Err(Refusal::Room));
    }
    put_frames(room, g);
    Streamed {
        size: Ok(0),
        stream: opened(version, n, pages, positions, u),
    }
}
