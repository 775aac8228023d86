// Laws of the region scan; no code.

#![tactic(auto)]
