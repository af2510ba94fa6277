// The close of a session: the host's call. The pointers, or a bitmap's numbers, are written once all that was announced
// is laid.
#![tactic(auto)]

ghost use Rattle.std.specs.Prelude.{◌≡◌};
ghost use Rattle.rules.specs.Stream.{complete};
ghost use Rattle.rules.specs.Promises.{TermEnded};
ghost use Rattle.sessionlaws.specs.Layout.{Roomed, ListsPointed};
ghost use Rattle.endterm.specs.Pages.{Formed, PagesPointed};

use rules::{LISTS_AT, Refusal, Stream, Streamed};
use sessionlaws::Layout;
use shape::{BITMAP, Shape};

// Whether all that was announced is laid.
fn is_complete(s: Stream) -> bool
    ensures { result ≡ complete s }
{
    if s.laid != s.pages {
        return false;
    }
    if s.filled != s.positions {
        return false;
    }
    s.base == s.u
}

// Writes the pointers of the pages, or a bitmap's numbers.
fn point_pages(block: &mut [u8], g: Shape)
    requires { Formed g block.old }
    ensures { PagesPointed g block.old block.new }
{
    if g.w == BITMAP {
        numbering::set_numbers(block, g);
    } else {
        pointing::set_pointers(block, g);
    }
}

// Writes the pointers of the three lists, or numbers where the pages are a bitmap.
fn point_lists(room: &mut [u8], g: Layout)
    requires { Roomed g room.old }
    ensures { ListsPointed g room.old room.new }
{
    let second = g.second;
    let third = g.third;
    point_pages(&mut room[LISTS_AT..], g.pages);
    pointing::set_pointers(&mut room[second..], g.counts);
    pointing::set_pointers(&mut room[third..], g.positions);
}

// Closes a session.
pub fn end_term(s: Stream, room: &mut [u8]) -> Streamed
    ensures { TermEnded s room.old result room.new }
{
    if !sessions::is_live(s) {
        return sessions::ended(Err(Refusal::Lists));
    }
    let g = sessions::layout_of(s);
    let size = g.size;
    if room.len() < size {
        return Streamed {
            size: Err(Refusal::Room),
            stream: s,
        };
    }
    if !is_complete(s) {
        sessions::clear(room, size);
        return sessions::ended(Err(Refusal::Lists));
    }
    point_lists(room, g);
    sessions::ended(Ok(size))
}
