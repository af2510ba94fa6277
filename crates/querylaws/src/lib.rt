// The cursors of a question's lists, and the laws of the step rule on them.
#![tactic(auto)]

ghost use Rattle.std.specs.Prelude.{◌≡◌};
ghost use Rattle.querylaws.specs.Queries.{new_query};

use walklaws::Cursor;

// The places of a list's eight numbers in its row: where its block starts and ends in the card, and the block's shape.
pub const FROM: usize = 0;

pub const TO: usize = 1;

pub const BOUND: usize = 2;

pub const WIDTH: usize = 3;

pub const BITS: usize = 4;

pub const LOWER: usize = 5;

pub const UPPER: usize = 6;

pub const LENGTH: usize = 7;

// The cursors of a question's lists, the lead's first.
#[derive(Clone, Copy)]
pub struct Query {
    pub cursors: [Cursor; 8],
}

impl Query {
    // A query that no seek has moved, and no default, as a cursor has none.
    pub fn new() -> Query
        ensures { result ≡ new_query }
    {
        let cursor = Cursor::new();
        Query {
            cursors: [cursor; 8],
        }
    }
}

// A query behind pages that were found, the mark of the last, page + 1, or SPENT where none is left, the bit at which the
// last list has that page, or 0, and how many pages they are.
#[derive(Clone, Copy)]
pub struct Turn {
    pub q: Query,
    pub mark: u32,
    pub bit: u32,
    pub found: usize,
}

// How many pages were found, and the seeks and looks that they took.
#[derive(Clone, Copy)]
pub struct Listed {
    pub found: usize,
    pub seeks: u32,
    pub looks: u32,
}
