// That what is done gives the outcome of the definition is in proofs/.
#![tactic(auto)]
