// How near the codes of lights that are given themselves lie to their exact values: see proofs/Theorem.antt. No function is needed.
#![tactic(auto)]
