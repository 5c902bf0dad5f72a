// Mathematics only: the promises are in specs/, their proofs in proofs/.
#![tactic(auto)]
