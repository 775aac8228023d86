// Laws of statements; no code.

#![tactic(auto)]
