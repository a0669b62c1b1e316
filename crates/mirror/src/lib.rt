// Shows what becomes of a scene that is swapped left for right (document 02, E7).
//
// Through the binaural rows the two ears swap, bit for bit: in each frame of any samples, in blocks of the
// decoder, and for a voice that the panner puts at the opposite azimuth (specs/Ears.antt, specs/Scenes.antt).
// The same is said of the speakers of a decoder's layout and of the signals of virtual speakers, whose weights
// are mirror images but for the sign of a zero, which no sum sees.
//
// Surround gains are mirror images in 5.1, and in 7.1 as far as 120 degrees (specs/Surround.antt); behind that
// three squares are added in another order. For the same reason the ears of the convolver, as document 01 sums
// them, swap with a mirrored bank where no speakers but the first two are exchanged, and else need not
// (specs/Convolver.antt, over specs/Parts.antt). What does not hold is refuted in proofs/, and measured by
// tests/mirror; docs/ACCURACY.md has the table.
//
// No function stands here. The statements are in specs/, their proofs in proofs/.
#![tactic(auto)]
