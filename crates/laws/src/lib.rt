// Laws of the definitions of bytes, bits, runs and counts; this crate has no function.
#![tactic(auto)]
