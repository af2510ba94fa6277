// Where terms and lists lie in a card: specs/ and proofs/ alone.
#![tactic(auto)]
