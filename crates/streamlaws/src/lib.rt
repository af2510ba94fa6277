// What follows from the rules of a session: a word handed over in runs is written as it is whole.
#![tactic(auto)]
