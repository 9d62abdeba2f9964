// What is true of the homes of any engine of hubs: what an engine is, runs, and the theorems that follow if its deeds are acts. Definitions and
// theorems, no code.
#![tactic(auto)]
