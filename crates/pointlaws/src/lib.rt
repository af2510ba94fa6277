// Where the search of a zero in a run stands, and the laws of the pointers that it gives and of a bitmap's numbers; this
// crate has no function.
#![tactic(auto)]

// Words of a run that are passed, and the zeros in them.
#[derive(Clone, Copy)]
pub struct Passed {
    pub words: usize,
    pub zeros: usize,
}
