// Cases of external schedules on rights stand in specs/, computed by the definitions; there is no code here.
#![tactic(auto)]
