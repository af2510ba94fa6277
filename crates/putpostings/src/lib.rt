// A run of postings handed to a session: the host's call. They are laid straight into the room, behind what is there.
#![tactic(auto)]

ghost use Rattle.std.specs.Prelude.{◌≡◌, length};
ghost use Rattle.rules.specs.Term.{lent_word};
ghost use Rattle.rules.specs.Stream.{added_word};
ghost use Rattle.rules.specs.Promises.{PostingsPut};
ghost use Rattle.sessionlaws.specs.Layout.{layout_of};
ghost use Rattle.sessionlaws.specs.Follow.{Laying};

use rules::{LISTS_AT, Refusal, Stream, Streamed};
use sessionlaws::Layout;

// Lays the postings of one page behind those of the session.
fn add_page(room: &mut [u8], g: Layout, s: Stream, pages: &[u32], counts: &[u32], positions: &[u32])
    requires { Laying g s (lent_word pages.now counts.now positions.now) room.old
        × (length pages.now ≡ 1) }
    ensures { room.new
        ≡ added_word s (lent_word pages.now counts.now positions.now)
        room.old }
{
    let laid = s.laid as usize;
    let filled = s.filled as usize;
    let second = g.second;
    let third = g.third;
    let sum = filled + counts[0] as usize - 1;
    adding::add_page(
        &mut room[LISTS_AT..],
        g.pages.lower,
        g.pages.upper,
        g.pages.w,
        laid,
        pages,
    );
    adding::add_one(
        &mut room[second..],
        g.counts.lower,
        g.counts.upper,
        g.counts.w,
        laid,
        sum,
    );
    adding::add_above(
        &mut room[third..],
        g.positions.lower,
        g.positions.upper,
        g.positions.w,
        filled,
        s.base as usize,
        positions,
    );
}

// Lays the postings of any number of pages. The layout is worked out again, as the caller's stays in registers only
// where it is lent to no function.
fn add_word(room: &mut [u8], s: Stream, pages: &[u32], counts: &[u32], positions: &[u32])
    requires { Laying (layout_of s.version s.n s.pages s.positions s.u) s
        (lent_word pages.now counts.now positions.now) room.old }
    ensures { room.new
        ≡ added_word s (lent_word pages.now counts.now positions.now)
        room.old }
{
    let g = sessions::layout_of(s);
    let laid = s.laid as usize;
    let filled = s.filled as usize;
    let second = g.second;
    let third = g.third;
    adding::add_pages(&mut room[LISTS_AT..], g.pages, laid, pages);
    addlists::add_sums(&mut room[second..], g.counts, laid, filled, counts);
    addlists::add_places(
        &mut room[third..],
        g.positions,
        filled,
        s.base as usize,
        counts,
        positions,
    );
}

// Lays postings behind those of the session.
fn add_run(room: &mut [u8], g: Layout, s: Stream, pages: &[u32], counts: &[u32], positions: &[u32])
    requires { Laying g s (lent_word pages.now counts.now positions.now) room.old }
    ensures { room.new
        ≡ added_word s (lent_word pages.now counts.now positions.now)
        room.old }
{
    if pages.len() == 1 {
        add_page(room, g, s, pages, counts, positions);
    } else {
        add_word(room, s, pages, counts, positions);
    }
}

// Hands the next postings of a word to its session.
pub fn put_postings(
    s: Stream,
    pages: &[u32],
    counts: &[u32],
    positions: &[u32],
    room: &mut [u8],
) -> Streamed
    ensures { PostingsPut s (lent_word pages.now counts.now positions.now)
        room.old result room.new }
{
    if !sessions::is_live(s) {
        return sessions::ended(Err(Refusal::Lists));
    }
    let first = shape::pages_shape(s.version, s.n as usize, s.pages as usize);
    let summed = shape::shape_of(s.positions as usize, s.pages as usize);
    let last = shape::shape_of(s.u as usize, s.positions as usize);
    let g = sessions::layout(first, summed, last);
    let size = g.size;
    if room.len() < size {
        return Streamed {
            size: Err(Refusal::Room),
            stream: s,
        };
    }
    let Some(base) = following::follow(s, pages, counts, positions) else {
        sessions::clear(room, size);
        return sessions::ended(Err(Refusal::Lists));
    };
    add_run(room, g, s, pages, counts, positions);
    Streamed {
        size: Ok(0),
        stream: following::advance(s, pages, positions, base),
    }
}
