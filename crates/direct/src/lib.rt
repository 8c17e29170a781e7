// The direct form of the lowering is in specs/, what it has to do with the definition in proofs/.
#![tactic(auto)]
