// The definition of the lowering is in specs/, its laws in proofs/.
#![tactic(auto)]
