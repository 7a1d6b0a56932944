// Laws of the paper's definitions stand in specs/; there is no code here.
#![tactic(auto)]
