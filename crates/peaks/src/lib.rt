// The PQ signals of whole peaks, enclosed by positions: see proofs/. No function is needed.
#![tactic(auto)]
