// The numbers and the types of document 01 that the code names, and the number of each refusal. All else of the document
// is in specs/.
#![tactic(auto)]

ghost use Rattle.std.specs.Prelude.{◌≡◌, Err};
ghost use Rattle.rules.specs.Refusal.{number};

// U and N at most.
pub const LIMIT: usize = 16777216;

// T at most.
pub const TERM_LIMIT: usize = 4096;

// Words in a question at most.
pub const PHRASE_LIMIT: usize = 8;

// The offset of a phrase's word at most.
pub const OFFSET_LIMIT: usize = 255;

// Pages of a screen at most.
pub const SCREEN_LIMIT: u32 = 64;

// The first number that four bytes do not hold.
pub const FOUR_BYTES: usize = 4294967296;

// The version of a term, and of a list in two runs.
pub const VERSION: u8 = 1;

// The version of a list that is a bitmap.
pub const MAP_VERSION: u8 = 2;

// The version of an index from which on dense pages are bitmaps.
pub const MAP_EDITION: u32 = 2;

// The versions of an index are 1 to this one.
pub const LAST_EDITION: u32 = 2;

// The byte of every block that holds its version, behind the length.
pub const VERSION_AT: usize = 4;

// The bytes of a list's header: length, version, U and n.
pub const LIST_HEADER: usize = 13;

// The byte at which a list's U starts.
pub const LIST_U_AT: usize = 5;

// The byte at which a list's n starts.
pub const LIST_N_AT: usize = 9;

// The bytes of a pointer.
pub const POINTER_SIZE: usize = 4;

// Pointer number i, from 1, starts POINTER_SIZE * i bytes behind this one; so does number i of a bitmap.
pub const POINTER_ZERO_AT: usize = 9;

// The bytes below which a term is too short: length, version and three headers of lists.
pub const TERM_HEADER: usize = 44;

// The byte at which a term's first list starts.
pub const LISTS_AT: usize = 5;

// The bytes of an index's header: length, version, N and T; its terms follow.
pub const INDEX_HEADER: usize = 11;

// The byte at which an index's N starts.
pub const INDEX_N_AT: usize = 5;

// The byte at which an index's T starts.
pub const INDEX_T_AT: usize = 9;

// Why bytes, lists or questions are refused; `number` of specs/Refusal.antt gives document 01's number.
#[derive(Clone, Copy, Debug, PartialEq, Eq)]
pub enum Refusal {
    Short,
    Length,
    Version,
    Limit,
    Layout,
    Runs,
    Parts,
    Question,
    Room,
    Lists,
}

// What a run of questions answers: how many it answered, and how many numbers of the room that took.
#[derive(Clone, Copy)]
pub struct Outcome {
    pub verdict: Result<(), Refusal>,
    pub answered: usize,
    pub used: usize,
}

// A screen that is shown: how many pages it has, and where it is full the bound of the next one [02 e].
#[derive(Clone, Copy)]
pub struct Screened {
    pub found: usize,
    pub next: Option<u32>,
}

// Where the writing of a word in runs stands: what was announced, `version` being that of the index, and how far it is
// laid. `mark` is 1 while postings may follow; `page` is the least page that may, and `base` the next page's [02 c].
#[repr(C)]
#[derive(Clone, Copy, Default)]
pub struct Stream {
    pub mark: u32,
    pub version: u32,
    pub n: u32,
    pub pages: u32,
    pub positions: u32,
    pub u: u32,
    pub laid: u32,
    pub filled: u32,
    pub page: u32,
    pub base: u32,
}

// What a call of such a session answers: the length of the finished block, else 0, and the session after it, which a
// refusal has too.
#[derive(Clone, Copy)]
pub struct Streamed {
    pub size: Result<usize, Refusal>,
    pub stream: Stream,
}

impl From<Refusal> for u32 {
    ghost from_gives = { λ r n. n ≡ number (Err r) };

    fn from(r: Refusal) -> u32 {
        match r {
            Refusal::Short => 1,
            Refusal::Length => 2,
            Refusal::Version => 3,
            Refusal::Limit => 4,
            Refusal::Layout => 5,
            Refusal::Runs => 6,
            Refusal::Parts => 7,
            Refusal::Question => 8,
            Refusal::Room => 9,
            Refusal::Lists => 10,
        }
    }
}
