// FlipCut as document 01 has it: definitions in specs/, to be read from top to bottom, and all that is proved of them in proofs/.
// Promises the theorems of proofs/Promises.antt about the answer to any matrix; there is no code here.
// Rests on crate taxa, for sets of taxa and sums.
#![tactic(auto)]
