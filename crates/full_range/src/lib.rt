// The lights at the positions of full-range codes, enclosed by the PQ formula: see proofs/. No function is needed.
#![tactic(auto)]
