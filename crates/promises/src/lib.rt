// The three demands on the product, over the definitions that the public functions' contracts are equations with. No function: specs/
// states each demand, and proofs/ has its proof.
#![tactic(auto)]
