// The lights at positions that the highlight curve bends to, enclosed by the PQ formula: see proofs/. No function is needed.
#![tactic(auto)]
