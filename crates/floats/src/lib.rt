// Laws of floats, in either format. No code and no definitions of its own: the operations are the library's, and `play` stands on these laws.
#![tactic(auto)]
