// The cases of the check on site stand in specs/, computed by the definitions; there is no code here.
#![tactic(auto)]
