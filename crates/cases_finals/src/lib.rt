// Cases of the requests on final values stand in specs/, computed by the definitions; there is no code here.
#![tactic(auto)]
