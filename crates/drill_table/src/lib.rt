// Shows that the eleven marked examples of document 01 follow from the definitions, as one checked list
// ('Marked drill table').
//
// Definitions and laws alone: no function stands here. specs/Table.antt says the eleven in document 01's
// words and order, items 5 and 11 as document 02 changes them, over the definitions that the promises are
// made of, and beside most of them what the program hands back; proofs/Table.antt shows them all. Everything
// else is run and compared (tests/compare).
#![tactic(auto)]
