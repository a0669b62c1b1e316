// Says what the two ears have to hear, and which frames are unsettled, over the frames so far (document 01,
// item 9 and 'Sums', from hrtf.rs).
//
// A past is the signals of the frames so far, silence before them. No ring and no position stand here, and no
// function: the definitions (specs/) are what `hrtf` promises and what demand 3 is stated over, and the laws
// (proofs/) say that an ear hears the last L frames and nothing else, that silence before the first frame is
// silence like any other, and that frames may be taken in any number of pieces.
#![tactic(auto)]
