// Worked cases of the text form of a message stand in specs/, computed by the definitions; there is no code here.
#![tactic(auto)]
