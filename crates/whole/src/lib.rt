// Laws of the whole numbers, in proofs/. No code.
#![tactic(auto)]
