// Replays a recording of the hydrophone line to two ears (document 02, E5): late frames are dropped, missing ones
// are put in as silence, a larger gap resets the convolver, and all of it is counted.
//
// Recorded frames are input planes with one stamp for each frame; the ears have a stride of their own. What is
// expected goes in and comes back by value, with desk and rings, so that a recording may be cut anywhere. How many
// frames come out is told by the stamps alone (`stamps::plan`), so that ear planes which are too short are refused
// before anything is played.
//
// `replay` takes any input. Its promise (specs/Promise.antt) is one equation for the answer, the rings and the ears,
// over the events of the recording, whatever the rings hold. What follows from it, demand 3 between resets and that
// a recording may be cut anywhere, is shown in `replays`.
#![tactic(auto)]

ghost use Rattle.std.specs.Prelude.{◌≡◌, ◌*◌, Some, IfOk, is_some};
ghost use Rattle.refusals.specs.Numbers.{number_in, number_found};
ghost use Rattle.std.proofs.Math.ListN as ListN;
ghost use Rattle.replay.specs.Promise.{replay_told, ReplayPromise};
ghost use Rattle.replay.specs.Computed.{recording_of, state_with, places_of, plan_in, refusal_picked, answered_of};

use hrtf_checks::ConvolverShape;
use hrtf_desk::Desk;
use play::Turned;
use refusals::Refusal;
use stamps::Planned;

mod gather;
mod play;

// What an accepted replay answers: the frames that came out, how many of them are unsettled, how many recorded frames
// were late, how many silent ones were put in, how many resets there were, the desk, and what is expected.
#[derive(Clone, Copy)]
pub struct Replayed {
    pub samples: usize,
    pub unsettled: usize,
    pub late: usize,
    pub silent: usize,
    pub resets: usize,
    pub desk: Desk,
    pub expected: Option<u32>,
}

// How many places of the block its planes take. More channels than 16 are refused.
fn places(channels: usize) -> usize
    ensures { result ≡ places_of channels }
{
    if channels <= 16 {
        return channels * gather::PLACES;
    }
    0
}

// What the recording comes to; nothing where it does not fit, or where stamps, inputs or ears have another length
// than they should.
fn plan_in(
    expected: Option<u32>,
    frames: usize,
    stride: usize,
    stamps: &[u32],
    channels: usize,
    inputs: usize,
    ear_stride: usize,
    ears: usize,
) -> Option<Planned>
    ensures { result ≡ plan_in expected frames stride stamps.now channels inputs ear_stride ears }
{
    if checks::is_block_unfit(stamps.len(), 1, inputs, channels, stride, frames) {
        return None;
    }
    if !checks::is_product(ears, 2, ear_stride) {
        return None;
    }
    stamps::plan(expected, &stamps[..frames], ear_stride)
}

// The plan of a replay that is not refused. Where the recording does not fit, the convolver's 2 and 4 come before 5.
fn accepted_plan(judged: Option<Refusal>, plan: Option<Planned>) -> Result<Planned, Refusal>
    ensures refusal { number_in result ≡ refusal_picked (number_found judged) (is_some plan) }
    ensures planned { IfOk result (λ p. plan ≡ Some p) }
{
    match plan {
        Some(plan) => match judged {
            Some(refusal) => Err(refusal),
            None => Ok(plan),
        },
        None => match judged {
            Some(Refusal::Count) => Err(Refusal::Count),
            Some(Refusal::FilterLength) => Err(Refusal::FilterLength),
            _ => Err(Refusal::Misfit),
        },
    }
}

// What a replay answers that was planned and played.
fn answered(plan: Planned, last: Turned) -> Replayed
    ensures { result ≡ answered_of plan last }
{
    Replayed {
        samples: plan.out,
        unsettled: last.unsettled,
        late: plan.late,
        silent: plan.silent,
        resets: plan.resets,
        desk: last.desk,
        expected: plan.expected,
    }
}

// Replays what is planned, with a block and its ears that are lent; what they hold does not matter.
fn replay_in(
    plan: Option<Planned>,
    desk: Desk,
    expected: Option<u32>,
    shape: ConvolverShape,
    frames: usize,
    stride: usize,
    stamps: &[u32],
    inputs: &[f32],
    weights: &[f64],
    row_of: &[usize; 8],
    taps: &[f32],
    rings: &mut [f32],
    ear_stride: usize,
    ears: &mut [f32],
    block: &mut [f32],
    block_ears: &mut [f32],
) -> Result<Replayed, Refusal>
    requires block_value { (ListN.length block.old ≡ places_of shape.channels)
        × (ListN.length block_ears.old ≡ 2 * 64) }
    requires plan_value { plan ≡ plan_in expected frames stride stamps.now shape.channels (ListN.length inputs.now)
        ear_stride (ListN.length ears.old) }
    ensures { ReplayPromise (recording_of shape frames stride stamps.now inputs.now
        weights.now
        row_of.now taps.now ear_stride)
        expected (state_with desk rings.old) ears.old
        (record { answer = replay_told desk expected result; rings = rings.new; ears = ears.new }) }
{
    let judged = hrtf_checks::refusal(
        desk,
        shape,
        0,
        gather::PLACES,
        block,
        weights,
        row_of,
        taps,
        rings,
        block_ears,
    );
    let plan = accepted_plan(judged, plan)?;
    let last = play::play(
        play::start(desk, expected),
        shape,
        frames,
        stride,
        stamps,
        inputs,
        weights,
        row_of,
        taps,
        rings,
        ear_stride,
        ears,
        block,
        block_ears,
    );
    Ok(answered(plan, last))
}

// Replays the first frames of a recording into the two ear planes, or refuses.
pub fn replay(
    desk: Desk,
    expected: Option<u32>,
    shape: ConvolverShape,
    frames: usize,
    stride: usize,
    stamps: &[u32],
    inputs: &[f32],
    weights: &[f64],
    row_of: &[usize; 8],
    taps: &[f32],
    rings: &mut [f32],
    ear_stride: usize,
    ears: &mut [f32],
) -> Result<Replayed, Refusal>
    ensures { ReplayPromise
        (record {
          shape = shape;
          frames = frames;
          stride = stride;
          stamps = stamps.now;
          inputs = inputs.now;
          weights = weights.now;
          rows = row_of.now;
          taps = taps.now;
          ear_stride = ear_stride;
        })
        expected
        (record { rings = rings.old; desk = desk })
        ears.old
        (record { answer = replay_told desk expected result; rings = rings.new; ears = ears.new }) }
{
    let mut block = [0.0f32; 1024];
    let mut block_ears = [0.0f32; 128];
    let plan = plan_in(
        expected,
        frames,
        stride,
        stamps,
        shape.channels,
        inputs.len(),
        ear_stride,
        ears.len(),
    );
    let size = places(shape.channels);
    replay_in(
        plan,
        desk,
        expected,
        shape,
        frames,
        stride,
        stamps,
        inputs,
        weights,
        row_of,
        taps,
        rings,
        ear_stride,
        ears,
        &mut block[..size],
        &mut block_ears,
    )
}
