// A run that gets there, worked out: tables, no code.
#![tactic(auto)]
