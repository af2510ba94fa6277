// The counts of ones in a word's bytes, and the laws by which they give the place of a one.
#![tactic(auto)]
