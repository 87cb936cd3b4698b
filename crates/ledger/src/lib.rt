// The clerk's book in sets of taxa, as a program keeps it: definitions and theorems, no code.
// Promises that with it every text comes to what the grammar's clerk says. Rests on taxa and grammar.
#![tactic(auto)]
