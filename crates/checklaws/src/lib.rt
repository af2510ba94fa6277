// Where the check of a list block stands, and the laws of its one pass over the upper run.
#![tactic(auto)]

// Where the lower run is read: the part read last, what is left of the word read last and how many bits that is, and
// the byte at which the next word starts.
#[derive(Clone, Copy)]
pub struct Low {
    pub part: u64,
    pub left: u64,
    pub held: usize,
    pub at: usize,
}

// What is known of the words passed: how many elements they hold, the number of the next pointer, and the last element as
// a pair of its high and its low part, 0 if there is none.
#[derive(Clone, Copy)]
pub struct Mid {
    pub i: usize,
    pub next: usize,
    pub last: u64,
    pub low: Low,
}
