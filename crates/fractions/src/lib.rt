// Gives the exact numbers over which every bound is said and proved: signed fractions of whole numbers.
//
// What a float is as a fraction, how near two fractions are (`Within`), that each operation is the exact
// result rounded once, and a calculus in which the bound of a formula is an expression, the formula and a
// test that computes. Gains over a root are bounded by squares (`BySquares`).
//
// Definitions and laws alone: no function stands here. What a reader has to believe are specs/Fraction and
// specs/Squares; proofs/Worked holds the definitions to closed cases.
#![tactic(auto)]
