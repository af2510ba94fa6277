// Where the setting of ones in an upper run stands, and the laws of ones set in the runs of a block in place.
#![tactic(auto)]

// The upper run in hand: the ones that word number `word` gets.
#[derive(Clone, Copy)]
pub struct Highs {
    pub acc: u64,
    pub word: usize,
}
