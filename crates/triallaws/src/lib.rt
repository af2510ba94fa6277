// Where counting the starts of a phrase on a page stands, and the laws of trying its words there.
#![tactic(auto)]

// A phrase's row holds the numbers of its words' lists, eight for each list: of the pages, the lead's first, of the counts
// and of the positions; behind them it holds the number of the word whose pages lead, and the offset of each word.
pub const COUNTS: usize = 64;

pub const POSITIONS: usize = 128;

pub const LEAD: usize = 192;

pub const OFFSETS: usize = 193;

pub const ROW: usize = 201;
