// General definitions and their laws stand in specs/; there is no code here.
#![tactic(auto)]
