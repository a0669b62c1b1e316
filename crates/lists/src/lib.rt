// Defines lists by a rule for each index, what calls one after another give, and that a contract allows one
// answer; and hands on what the crates use of the kit.
//
// What a list holds is said by a rule for each place: a table, a chunk of a list, a part that stands from a
// place on, what is so of each element, and of two lists place by place. In these definitions (specs/) every crate
// above says its sums, planes, rows and fields. The laws (proofs/): a table is known by its places, parts
// that are put in one after the other are one part, what a loop that fills a list or goes through a table has
// done so far, what is chosen by a test, and that a promise which is an equation has one answer. No function
// stands here.
#![tactic(auto)]
