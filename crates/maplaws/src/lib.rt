// Theorems of a list in either form: a bitmap's block, its reading and its refusal; this crate has no function.
#![tactic(auto)]
