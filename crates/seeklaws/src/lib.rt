// Theorems of the seek on a rising list: its answers, its looks and its jumps; this crate has no function.
#![tactic(auto)]
