// Cases on books and messages stand in specs/, computed by the definitions; there is no code here.
#![tactic(auto)]
