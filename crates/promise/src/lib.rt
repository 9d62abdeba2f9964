// What is promised of a hub's step and of its parts. No code of its own: the promises' definitions and laws stand beside.
#![tactic(auto)]
