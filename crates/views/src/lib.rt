// What hubs of any engine do, seen from MultiPaxos: definitions and theorems, no code.
#![tactic(auto)]
