// Shows what the convolver guarantees over many calls: demand 3, and that a bank which keeps the form is
// never refused.
//
// A run is a list of calls of `hrtf::process` with refused calls anywhere between, the rings and the desk
// passed on from each to the next. From a reset on, however the run is cut into calls: every ear sample is
// document 01's sum over the last L frames; two runs that agree on a frame and the L-1 frames before it give
// the same ear samples there, whatever came earlier, and are both unsettled there or both settled; each
// call's unsettled count is the number of its frames with a damaged frame among the last L. Two runs that
// feed the same frames sound the same, cut as they may be, and leave the same rings and desk.
//
// And a bank that keeps the form is never refused: read from its file, set up for a layout or an order, the
// rings reset, every call whose planes fit is accepted.
//
// No function stands here. The statements are in specs/Demand.antt (`Demand3`) and specs/NeverRefused.antt,
// their proofs in proofs/.
#![tactic(auto)]
