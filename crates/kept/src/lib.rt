// What of a state has to be stored, and when: a definition and a theorem, no code.
#![tactic(auto)]
