// Writing one word's block: the host's call. The word is tested first, and its three lists are laid into the room one
// after the other.
#![tactic(auto)]

ghost use Rattle.std.specs.Prelude.{◌≡◌, ◌+◌, ◌≤◌, ◌<◌, length};
ghost use Rattle.rules.specs.Term.{lent_word, next, places};
ghost use Rattle.rules.specs.Promises.{TermWritten};
ghost use Rattle.termlaws.specs.Words.{Writable};
ghost use Rattle.writeterm.specs.Laid.{SomeShaped, TermLaid};

use rules::{LIMIT, LISTS_AT, Refusal, VERSION, VERSION_AT};
use wordlaws::Shapes;

// Writes the block of a word whose lists have these shapes: its header, and behind it the lists, each straight into its
// part.
fn fill_term(room: &mut [u8], g: Shapes, pages: &[u32], counts: &[u32], positions: &[u32])
    requires { SomeShaped g pages.now counts.now positions.now
        × (5 + g.pages.end + g.counts.end + g.positions.end ≤ length room.old) }
    ensures { TermLaid g pages.now counts.now positions.now room.old
        room.new }
{
    let second = LISTS_AT + g.pages.end;
    let third = second + g.counts.end;
    numbers::write_u32(room, 0, (third + g.positions.end) as u64);
    room[VERSION_AT] = VERSION;
    fillmap::fill_pages(&mut room[LISTS_AT..], g.pages, pages);
    fillword::fill_sums(&mut room[second..], g.counts, counts);
    fillword::fill_places(&mut room[third..], g.positions, counts, positions);
}

// Writes the block of a word that has passed its tests, the elements of whose positions end at `reach`; or tells that
// the room is too small.
fn write_tested(
    version: u32,
    n: usize,
    reach: usize,
    pages: &[u32],
    counts: &[u32],
    positions: &[u32],
    room: &mut [u8],
) -> Result<usize, Refusal>
    requires { Writable version n (lent_word pages.now counts.now positions.now)
        × (reach ≡ next 0 (places (lent_word pages.now counts.now positions.now))) }
    ensures { TermWritten version n
        (lent_word pages.now counts.now positions.now) room.old result
        room.new }
{
    let g = Shapes {
        pages: shape::pages_shape(version, n, pages.len()),
        counts: shape::shape_of(positions.len(), counts.len()),
        positions: shape::shape_of(reach, positions.len()),
    };
    let size = LISTS_AT + g.pages.end + g.counts.end + g.positions.end;
    if room.len() < size {
        return Err(Refusal::Room);
    }
    fill_term(room, g, pages, counts, positions);
    Ok(size)
}

// Writes a word's block at the front of the room, for an index of that version: pages below n, how often the word is on
// each, and the positions of all pages.
pub fn write_term(
    version: u32,
    n: u32,
    pages: &[u32],
    counts: &[u32],
    positions: &[u32],
    room: &mut [u8],
) -> Result<usize, Refusal>
    ensures { TermWritten version n
        (lent_word pages.now counts.now positions.now) room.old result
        room.new }
{
    if !parts::known(version) {
        return Err(Refusal::Version);
    }
    if LIMIT < n as usize {
        return Err(Refusal::Limit);
    }
    let Some(reach) = testword::check_word(n as usize, pages, counts, positions) else {
        return Err(Refusal::Lists);
    };
    if LIMIT < reach {
        return Err(Refusal::Limit);
    }
    write_tested(version, n as usize, reach, pages, counts, positions, room)
}
