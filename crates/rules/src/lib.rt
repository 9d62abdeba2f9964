// The rules of a hub: definitions and theorems about them, no code. The exported step stands on them.
#![tactic(auto)]
