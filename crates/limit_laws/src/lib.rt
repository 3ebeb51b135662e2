// Laws of limits: what is the same under two limits of which one allows more. No code.
#![tactic(auto)]
