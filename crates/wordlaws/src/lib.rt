// What the writing of a word asks of its lists, and the laws of their tests and of their places.
#![tactic(auto)]

use shape::Shape;

// The page that a stretch of positions starts on: its number, and how many of the stretch come before its end.
#[derive(Clone, Copy)]
pub struct Turn {
    pub page: usize,
    pub end: usize,
}

// How many counts are passed, and the sum up to there.
#[derive(Clone, Copy)]
pub struct Tally {
    pub done: usize,
    pub sum: usize,
}

// How many positions are passed, the page that the next one is on, and its base.
#[derive(Clone, Copy)]
pub struct Spot {
    pub done: usize,
    pub turn: Turn,
    pub base: usize,
}

// The shapes of a word's three lists.
#[derive(Clone, Copy)]
pub struct Shapes {
    pub pages: Shape,
    pub counts: Shape,
    pub positions: Shape,
}
