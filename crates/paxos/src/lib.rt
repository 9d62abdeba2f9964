// MultiPaxos, the machine that the hubs are mapped to: definitions and theorems, no code.
#![tactic(auto)]
