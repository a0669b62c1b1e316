// Says for every proof about floats what the values and the bit patterns of binary32 and binary64 are.
//
// The values are whole numbers of the format's smallest value: one theory over the width, for the
// conversions, the root and the rounding laws alike (proofs/). And the numbers that the code writes, 0.0 and
// whole and decimal ones, have their definitions here (specs/). No function stands here. IEEE 754 itself is
// the kit's (`lib.Ieee`).
#![tactic(auto)]
