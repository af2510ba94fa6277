// The customer's demands, proved of what the exported calls promise; this crate has no function.
#![tactic(auto)]
