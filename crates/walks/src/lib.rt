// Gives the steps that proofs by hand share: those of functions that hold a lent list of structs, or lend a
// slice again that they were passed. An earlier prover did not cover these; today's does, and the functions of
// `hrtf` and `hrtf_desk` that were walked by these steps are proved without them.
//
// No function stands here. `Kit` hands on the kit's names that such a proof uses. `Walking` has the places of
// a context and the head of a `while`, `Data` types that own only facts and what is said of each parameter,
// `Calling` the entry, a call and the end of a function, for all parameters at once, `Relent` slices that are
// lent again for a call and come back, `Prefix` the first elements of an array, lent without the rest.
#![tactic(auto)]
