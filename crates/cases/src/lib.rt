// The twelve worked cases of the rules, computed at full size: no code of its own.
#![tactic(auto)]
