// Worked examples of the step: no code of its own.
#![tactic(auto)]
