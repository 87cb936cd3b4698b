// The one tree that shows an answer's groups, parts by lowest taxon, and its text: definitions and theorems, no code.
// Promises that its clades are the groups, and that its text reads back to it. Rests on taxa and grammar.
#![tactic(auto)]
