// The calls that a host makes, in C or Rust: include/jundefola.h tells of them, and none asks anything beforehand.
#![tactic(auto)]

ghost use Rattle.rules.specs.Term.{lent_word};
ghost use Rattle.hostlaws.specs.Host.{HostListChecked, HostListWritten, HostTermChecked, HostTermWritten};
ghost use Rattle.hostlaws.specs.Host.{HostTermBegun, HostPostingsPut, HostTermEnded};
ghost use Rattle.hostlaws.specs.Host.{HostIndexChecked, HostIndexClosed, HostAnswered, HostScreenShown};

use rules::Stream;
use telling::{HostAsked, HostScreened, HostStreamed, HostWritten};

// Writes a list below u into the room.
#[unsafe(no_mangle)]
pub extern "C" fn jf_write_list(u: u32, list: &[u32], room: &mut [u8]) -> HostWritten
    ensures { HostListWritten u list.now room.old result room.new }
{
    HostWritten::from(writelist::write_list(u, list, room))
}

// The refusal of a list block.
#[unsafe(no_mangle)]
pub extern "C" fn jf_check_list(block: &[u8]) -> u32
    ensures { HostListChecked block.now result }
{
    refusals::number_of(checklist::check_list(block))
}

// Writes a word of an index of that version and of n pages into the room.
#[unsafe(no_mangle)]
pub extern "C" fn jf_write_term(
    version: u32,
    n: u32,
    pages: &[u32],
    counts: &[u32],
    positions: &[u32],
    room: &mut [u8],
) -> HostWritten
    ensures { HostTermWritten version n
        (lent_word pages.now counts.now positions.now)
        room.old result room.new }
{
    HostWritten::from(writeterm::write_term(version, n, pages, counts, positions, room))
}

// Announces a word of such an index that is handed over in runs: so many of n pages and so many positions, whose
// elements end at u.
#[unsafe(no_mangle)]
pub extern "C" fn jf_begin_term(
    version: u32,
    n: u32,
    pages: u32,
    positions: u32,
    u: u32,
    room: &mut [u8],
) -> HostStreamed
    ensures { HostTermBegun version n pages positions u room.old result room.new }
{
    HostStreamed::from(beginterm::begin_term(version, n, pages, positions, u, room))
}

// Lays the next postings of such a word behind those in the room.
#[unsafe(no_mangle)]
pub extern "C" fn jf_put_postings(
    stream: Stream,
    pages: &[u32],
    counts: &[u32],
    positions: &[u32],
    room: &mut [u8],
) -> HostStreamed
    ensures { HostPostingsPut stream
        (lent_word pages.now counts.now positions.now)
        room.old result room.new }
{
    HostStreamed::from(putpostings::put_postings(stream, pages, counts, positions, room))
}

// Closes such a word.
#[unsafe(no_mangle)]
pub extern "C" fn jf_end_term(stream: Stream, room: &mut [u8]) -> HostStreamed
    ensures { HostTermEnded stream room.old result room.new }
{
    HostStreamed::from(endterm::end_term(stream, room))
}

// The refusal of a term block of an index of that version.
#[unsafe(no_mangle)]
pub extern "C" fn jf_check_term(version: u32, block: &[u8]) -> u32
    ensures { HostTermChecked version block.now result }
{
    refusals::number_of(checkterm::check_term(version, block))
}

// Closes an index of that version, of t terms that lie from byte 11 on in the first `used` bytes of the buffer.
#[unsafe(no_mangle)]
pub extern "C" fn jf_close_index(
    buffer: &mut [u8],
    used: usize,
    version: u32,
    n: u32,
    t: u32,
) -> HostWritten
    ensures { HostIndexClosed buffer.old used version n t result buffer.new }
{
    HostWritten::from(closeindex::close_index(buffer, used, version, n, t))
}

// The refusal of an index.
#[unsafe(no_mangle)]
pub extern "C" fn jf_check_index(card: &[u8]) -> u32
    ensures { HostIndexChecked card.now result }
{
    refusals::number_of(checkindex::check_index(card))
}

// Asks the card: the answers stand one after the other in the room.
#[unsafe(no_mangle)]
pub extern "C" fn jf_ask(card: &[u8], questions: &[u32], room: &mut [u32]) -> HostAsked
    ensures { HostAnswered card.now questions.now room.old result
        room.new }
{
    HostAsked::from(ask::ask(card, questions, room))
}

// Shows a screen of at most r pages that the words share, from the bound on.
#[unsafe(no_mangle)]
pub extern "C" fn jf_screen(
    card: &[u8],
    bound: u32,
    r: u32,
    words: &[u32],
    pages: &mut [u32],
    counts: &mut [u32],
) -> HostScreened
    ensures { HostScreenShown card.now bound r words.now pages.old
        counts.old result pages.new counts.new }
{
    HostScreened::from(panel::screen(card, bound, r, words, pages, counts))
}
