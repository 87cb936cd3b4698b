// The demands, said of what people hold: a matrix file's bytes, and the bytes that the build leaves in its output.
// Promises the theorems of proofs/: one for each sentence of demands 2 and 3, and document 01's specimens as one table. Its functions only call the
// operations, so that the theorems rest on contracts which the operations have.
// Rests on taxa, method, record, grammar, matrix, answer, entries, search, split, tree, score, names, newick, spelling and flipcut.
#![tactic(auto)]

pub mod answer_operations;
pub mod half_operations;
pub mod newick_operations;
pub mod operations;
