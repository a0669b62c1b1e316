// The convolver: plays blocks of frames to two ears through the filters of a bank (document 01, item 9 and
// 'Sums', from hrtf.rs).
//
// `process` plays a block: per frame and speaker a signal goes into that speaker's ring, and each ear hears
// the rings through the filters of the lent bank. `reset` makes every ring 0.0 and both numbers of the desk
// 0.
//
// Both take any input. The promise of `process` (specs/Promise.antt) is one equation for the answer, the
// rings and the ears, whatever the rings hold: the ears are document 01's sums over the block's signals,
// newest first, followed by those that were held; the rings left hold the newest L of these. What stands for
// a past before the block stands for that past with the block's frames after it; what `reset` leaves stands
// for none. Demand 3, over runs of many calls, is stated and shown in `hrtf_runs`.
#![tactic(auto)]

ghost use Rattle.std.specs.Prelude.{◌≡◌};
ghost use Rattle.hrtf.specs.Promise.{ProcessPromise, block_told};
ghost use Rattle.hrtf.specs.Reset.{ResetPromise, reset_told};

use hrtf_checks::ConvolverShape;
use hrtf_desk::Desk;
use refusals::Refusal;

mod frames;
mod parts;

// What an accepted block answers: the frames played, how many of them are unsettled, and the desk.
#[derive(Clone, Copy)]
pub struct BlockAnswer {
    pub samples: usize,
    pub unsettled: usize,
    pub desk: Desk,
}

// Plays the first frames of the input planes into the two ear planes, or refuses.
pub fn process(
    desk: Desk,
    shape: ConvolverShape,
    frames: usize,
    stride: usize,
    inputs: &[f32],
    weights: &[f64],
    row_of: &[usize; 8],
    taps: &[f32],
    rings: &mut [f32],
    ears: &mut [f32],
) -> Result<BlockAnswer, Refusal>
    ensures { ProcessPromise
        (record {
          shape = shape;
          frames = frames;
          stride = stride;
          inputs = inputs.now;
          weights = weights.now;
          rows = row_of.now;
          taps = taps.now;
          ears = ears.old;
        })
        (record { rings = rings.old; desk = desk })
        (record { answer = block_told desk result; rings = rings.new; ears = ears.new }) }
{
    if let Some(refusal) = hrtf_checks::refusal(
        desk, shape, frames, stride, inputs, weights, row_of, taps, rings, ears,
    ) {
        return Err(refusal);
    }
    let turn = frames::block(
        desk,
        frames::scale(shape),
        frames,
        stride,
        inputs,
        weights,
        row_of,
        taps,
        rings,
        ears,
    );
    Ok(BlockAnswer {
        samples: frames,
        unsettled: turn.unsettled,
        desk: turn.desk,
    })
}

// Every ring 0.0, both numbers 0. The desk given in is the caller's still where the reset is refused.
pub fn reset(desk: Desk, speakers: usize, length: usize, rings: &mut [f32]) -> Result<Desk, Refusal>
    ensures { ResetPromise desk speakers length rings.old
        (record { answer = reset_told desk result; rings = rings.new }) }
{
    if refusals::is_outside(speakers, 8) {
        return Err(Refusal::Count);
    }
    if refusals::is_outside(length, 512) {
        return Err(Refusal::FilterLength);
    }
    if !checks::is_product(rings.len(), speakers, length) {
        return Err(Refusal::Misfit);
    }
    rings.fill(0.0);
    Ok(Desk {
        position: 0,
        to_go: 0,
    })
}
