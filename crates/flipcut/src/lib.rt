// What a program in C calls: every operation, with byte files and lent buffers as slices, and one packed number as its answer (include/flipcut.h).
// Promises: the number is the operation's answer packed as specs/Packed.antt says, what is lent is left as the operation leaves it, and unpacking
// the number gives that answer back. Rests on record, matrix, answer, entries, split, tree, score, names, newick and
// spelling.
#![tactic(auto)]

pub mod answers;
pub mod matrices;
mod pack;
pub mod trees;
