// Mathematics only: the definitions are in specs/, their laws in proofs/.
#![tactic(auto)]
