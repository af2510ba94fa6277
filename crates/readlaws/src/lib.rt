// What is known of an accepted list block, and the laws of reading in it: specs/ and proofs/ alone.
#![tactic(auto)]
