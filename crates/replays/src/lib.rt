// Shows what the replay of a recorded line guarantees over many calls: its counts, demand 3 between resets, and
// that a recording may be cut anywhere (document 02, E5).
//
// A replay is a list of calls of `replay::replay` with refused calls anywhere between, what is expected, the rings
// and the desk passed on from each to the next, every accepted call having the same filters. However the recording is
// cut into calls: the counts are those of the plain definition over the recorded list, and samples + late = frames +
// silent; what is heard, counted and left is the same. From a reset on: every ear sample is document 01's sum over the
// last L frames as fed since the last reset; two replays that agree on a frame as fed and the L-1 before it since the
// last reset give the same ear samples there, whatever came earlier, and are both unsettled there or both settled; each
// call's unsettled count is the number of its frames with a damaged frame among those L.
//
// No function stands here. The statement is `ReplayDemand3` in specs/Demand.antt, its proof in proofs/Demand.antt; the
// worked recording is computed by the definitions in proofs/Worked.antt, and wrong answers are refuted on it.
#![tactic(auto)]
