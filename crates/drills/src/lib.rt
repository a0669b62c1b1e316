// Shows what a drill guarantees from its cues to the ears: demand 3, read on the frames after encoding
// (document 02, E1).
//
// A drill is two lists of calls. `script::render` encodes samples into planes, one plane for each ambisonic
// channel, and `hrtf::process` plays such planes to the ears. Refused calls may stand anywhere in both, and
// each list may be cut into calls of its own. What is fed to the convolver is what was encoded, so every
// sentence of demand 3 holds of the frames after encoding: whatever the cues and the samples were, two drills
// that agree on the last L encoded frames sound the same there. Damage is judged there too: a NaN sample
// before the first cue is none, since 0.0 is encoded.
//
// And there are such drills: planes that `render` left are never refused by a convolver that was set up for
// the order.
//
// No function stands here. The statements are in specs/Demand.antt (`DrillDemand3`) and specs/Playing.antt
// (`DrillPlays`), their proofs in proofs/.
#![tactic(auto)]
