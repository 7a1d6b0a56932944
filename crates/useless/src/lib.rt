// There is no function here: the crate holds laws, in specs/.
#![tactic(auto)]
