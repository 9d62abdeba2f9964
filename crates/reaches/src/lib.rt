// It does get there: definitions and theorems, no code.
#![tactic(auto)]
