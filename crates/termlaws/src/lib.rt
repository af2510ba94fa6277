// Laws of one word and its block; this crate has no function.
#![tactic(auto)]
