// Laws of the free space of a page; no code.

#![tactic(auto)]
