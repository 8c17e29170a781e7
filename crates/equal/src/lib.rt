// Which trees are equal is a definition, not code: it is in specs/, its laws in proofs/.
#![tactic(auto)]
