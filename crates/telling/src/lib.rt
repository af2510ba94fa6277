// What a host is told, and how the library's answers become that.
#![tactic(auto)]

ghost use Rattle.std.specs.Prelude.{◌≡◌, List, ℕ};
ghost use Rattle.rules.specs.Write.{made};
ghost use Rattle.rules.specs.Stream.{streaming};
ghost use Rattle.rules.specs.Ask.{asked};
ghost use Rattle.rules.specs.Screen.{screening};
ghost use Rattle.telling.specs.Told.{told, told_of, told_stream, told_stream_of, heard, heard_of, seen, seen_of};

use rules::{Outcome, Refusal, Screened, Stream, Streamed};

// What a writer, or closing an index, answers.
#[repr(C)]
#[derive(Clone, Copy)]
pub struct HostWritten {
    pub refusal: u32,
    pub length: usize,
}

// What a call of a session answers: the length of the finished block, else 0, and the session to go on with.
#[repr(C)]
#[derive(Clone, Copy)]
pub struct HostStreamed {
    pub refusal: u32,
    pub length: usize,
    pub stream: Stream,
}

// What a run of questions answers.
#[repr(C)]
#[derive(Clone, Copy)]
pub struct HostAsked {
    pub refusal: u32,
    pub answered: usize,
    pub used: usize,
}

// What a screen answers: how many pages it found, 1 where it is full, and then the bound of the next one.
#[repr(C)]
#[derive(Clone, Copy)]
pub struct HostScreened {
    pub refusal: u32,
    pub found: usize,
    pub full: u32,
    pub next: u32,
}

impl From<Result<usize, Refusal>> for HostWritten {
    ghost from_gives = { λ w r. (room : List ℕ) → told_of r room ≡ told (made w room) };

    fn from(w: Result<usize, Refusal>) -> HostWritten {
        match w {
            Ok(length) => HostWritten {
                refusal: refusals::number_of(Ok(())),
                length,
            },
            Err(refusal) => HostWritten {
                refusal: refusals::number_of(Err(refusal)),
                length: 0,
            },
        }
    }
}

impl From<Streamed> for HostStreamed {
    ghost from_gives = { λ w r. (room : List ℕ) → told_stream_of r room ≡ told_stream (streaming w room) };

    fn from(w: Streamed) -> HostStreamed {
        let HostWritten { refusal, length } = HostWritten::from(w.size);
        HostStreamed {
            refusal,
            length,
            stream: w.stream,
        }
    }
}

impl From<Outcome> for HostAsked {
    ghost from_gives = { λ o r. (room : List ℕ) → heard_of r room ≡ heard (asked o room) };

    fn from(o: Outcome) -> HostAsked {
        HostAsked {
            refusal: refusals::number_of(o.verdict),
            answered: o.answered,
            used: o.used,
        }
    }
}

impl From<Result<Screened, Refusal>> for HostScreened {
    ghost from_gives = { λ s r. (pages counts : List ℕ) → seen_of r pages counts ≡ seen (screening s pages counts) };

    fn from(s: Result<Screened, Refusal>) -> HostScreened {
        match s {
            Ok(shown) => HostScreened {
                refusal: refusals::number_of(Ok(())),
                found: shown.found,
                full: u32::from(shown.next.is_some()),
                next: shown.next.unwrap_or(0),
            },
            Err(refusal) => HostScreened {
                refusal: refusals::number_of(Err(refusal)),
                found: 0,
                full: 0,
                next: 0,
            },
        }
    }
}
