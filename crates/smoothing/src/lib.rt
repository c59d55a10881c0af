// Mathematics only: the definitions stand in specs/, the laws and theorems in proofs/.
#![tactic(auto)]
