// Document 01's cases A to L. No function: specs/ has the list of the cases, proofs/ that each answer is right.
#![tactic(auto)]
