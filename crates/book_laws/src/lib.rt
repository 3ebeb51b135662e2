// Laws of rule books and of what they decide. No code.
#![tactic(auto)]
