// Laws of lists, of padded arrays, and of walks over them. No code.
#![tactic(auto)]
