// Runs of a home, and why they are safe: definitions and theorems, no code.
#![tactic(auto)]
