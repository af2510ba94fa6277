// A cursor on a list, where a seek stands between its steps, and the laws of each step.
#![tactic(auto)]

ghost use Rattle.std.specs.Prelude.{◌≡◌};
ghost use Rattle.walklaws.specs.Cursors.{unused};

// A cursor on a list in either form: its mark is 0 where fresh, page + 1 on an element, or SPENT; the element's bit;
// and its counts.
#[derive(Clone, Copy)]
pub struct Cursor {
    pub mark: u32,
    pub bit: u32,
    pub seeks: u32,
    pub looks: u32,
}

// The mark of a spent cursor: a number and no Option, as a cursor is four numbers (tests/counts, `numbers_alone`).
pub const SPENT: u32 = 4294967295;

impl Cursor {
    // A cursor that no seek has moved; it is no default, as cursors are made where they are named (tests/counts).
    pub fn new() -> Cursor
        ensures { result ≡ unused }
    {
        Cursor {
            mark: 0,
            bit: 0,
            seeks: 0,
            looks: 0,
        }
    }
}

// A place of an upper run, the zeros before it, and whether the cursor's own element is there: 1, else 0, a number as the
// place behind it is the sum of both.
#[derive(Clone, Copy)]
pub struct StartPlace {
    pub bit: usize,
    pub zeros: usize,
    pub own: u32,
}

// What a walk has before it: what is left of word k, and the ones of the run before that.
#[derive(Clone, Copy)]
pub struct Ones {
    pub left: u64,
    pub k: usize,
    pub rank: usize,
}

// Where a search ends: the cursor's mark and bit. Two numbers of one size would be put into one register and taken apart
// again, for which the next seek would wait.
#[derive(Clone, Copy)]
pub struct Landing {
    pub mark: u32,
    pub bit: usize,
}
