// Worked cases of document 01 stand in specs/, computed by the definitions; there is no code here.
#![tactic(auto)]
