// What begins a legal message, and where a text begins none. No code of its own: seekers and their laws stand here, and `seek` and `place` look for
// places by them.
#![tactic(auto)]
