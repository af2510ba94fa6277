// Laws of an index of many words; this crate has no function.
#![tactic(auto)]
