// Where the writing of a list block stands, and the laws of laying one element after the other.
#![tactic(auto)]

// The lower run so far: its words that stand in the room, and the `have` bits above them.
#[derive(Clone, Copy, Default)]
pub struct Lows {
    pub acc: u64,
    pub have: usize,
    pub words: usize,
}

// The upper run so far: its words that stand in the room, the bits above them, and the next pointer's number.
// A one below `stop` falls into the word in hand, and no pointer is due before it.
#[derive(Clone, Copy)]
pub struct Ups {
    pub acc: u64,
    pub words: usize,
    pub next: usize,
    pub stop: usize,
}

// A block of which `count` elements are laid.
#[derive(Clone, Copy)]
pub struct Filling {
    pub count: usize,
    pub lows: Lows,
    pub ups: Ups,
}
