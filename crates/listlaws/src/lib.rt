// Theorems of one list: its block, its reading and its refusal; this crate has no function.
#![tactic(auto)]
