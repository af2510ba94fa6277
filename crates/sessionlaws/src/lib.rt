// The block that a session writes, and the laws of a session's tests.
#![tactic(auto)]

use shape::Shape;

// The shapes of its three lists, the bytes at which the counts and the positions start, and its length.
#[derive(Clone, Copy)]
pub struct Layout {
    pub pages: Shape,
    pub counts: Shape,
    pub positions: Shape,
    pub second: usize,
    pub third: usize,
    pub size: usize,
}
