// Plays a recording in turns (document 02, E5): the frames as they are fed are gathered in a block, the block is
// played by the convolver, its ears go behind those that stand in the ear planes, and where a reset comes next
// the convolver is reset.
//
// `play` says by the events of the recording, one after another, what the rings, the desk and the ear planes hold
// in the end, how many frames came out and how many of them are unsettled (specs/Computed.antt).
ghost use Rattle.std.specs.Prelude.{◌≡◌, ◌+◌, ◌^◌, ◌<◌};
ghost use Rattle.planes.specs.Planes.{frame_at, frames_of, with_frame, with_frames};
ghost use Rattle.replay.specs.Computed.{recording_of, state_with, RecordingChecked, BlockAndStateFit, start_of};
ghost use Rattle.replay.specs.Computed.{ResetFits, rested_if, EarsFit, TurnsPlayed};
ghost use Rattle.replay.specs.Computed.{TurnPlayed};

use crate::gather::PLACES;
use hrtf_checks::ConvolverShape;
use hrtf_desk::Desk;

// How far a recording is played: the desk, what is expected, the recorded frame that comes next, the frames that came
// out, and how many of them are unsettled.
#[derive(Clone, Copy)]
pub(crate) struct Turned {
    pub(crate) desk: Desk,
    pub(crate) expected: Option<u32>,
    pub(crate) at: usize,
    pub(crate) done: usize,
    pub(crate) unsettled: usize,
}

// Where a replay starts.
pub(crate) fn start(desk: Desk, expected: Option<u32>) -> Turned
    ensures { result ≡ start_of desk expected }
{
    Turned {
        desk,
        expected,
        at: 0,
        done: 0,
        unsettled: 0,
    }
}

// One frame of the block's ears to a place of the ear planes.
fn put_pair(ears: &mut [f32], ear_stride: usize, place: usize, block_ears: &[f32], frame: usize)
    ensures { ears.new ≡ with_frame ears.old ear_stride place
        (frame_at block_ears.now 64 2 frame) }
{
    let left = planes::sample(block_ears, PLACES, 0, frame);
    let right = planes::sample(block_ears, PLACES, 1, frame);
    planes::put_sample(ears, ear_stride, 0, place, left);
    planes::put_sample(ears, ear_stride, 1, place, right);
}

// The block's ears, behind those that stand in the ear planes.
fn put_ears(ears: &mut [f32], ear_stride: usize, done: usize, block_ears: &[f32], count: usize)
    requires { done + count < 2 ^ 64 }
    ensures { ears.new ≡ with_frames ears.old ear_stride done
        (frames_of block_ears.now 64 2 count) }
{
    for n in 0..count {
        put_pair(ears, ear_stride, done + n, block_ears, n);
    }
}

// A reset, where there is one.
fn rest_if(restart: bool, desk: Desk, speakers: usize, length: usize, rings: &mut [f32]) -> Desk
    requires { ResetFits speakers length rings.old }
    ensures { state_with result rings.new ≡ rested_if restart (state_with desk rings.old) }
{
    if restart {
        return hrtf::reset(desk, speakers, length, rings).unwrap();
    }
    desk
}

// Gathers one block, plays it, puts its ears behind those before, and resets where a reset comes next.
fn turn(
    so_far: Turned,
    shape: ConvolverShape,
    frames: usize,
    stride: usize,
    stamps: &[u32],
    inputs: &[f32],
    weights: &[f64],
    row_of: &[usize; 8],
    taps: &[f32],
    rings: &mut [f32],
    ear_stride: usize,
    ears: &mut [f32],
    block: &mut [f32],
    block_ears: &mut [f32],
) -> Turned
    requires recording_checked { RecordingChecked (recording_of shape frames stride stamps.now inputs.now weights.now
        row_of.now
        taps.now ear_stride) }
    requires block_and_state_fit { BlockAndStateFit (recording_of shape frames stride stamps.now inputs.now weights.now
        row_of.now
        taps.now ear_stride) (state_with so_far.desk rings.old) block.old block_ears.old }
    requires ears_fit { EarsFit (recording_of shape frames stride stamps.now inputs.now weights.now row_of.now
        taps.now ear_stride) so_far }
    ensures { TurnPlayed (recording_of shape frames stride stamps.now inputs.now weights.now
        row_of.now taps.now ear_stride)
        so_far rings.old ears.old result rings.new ears.new }
{
    let desk = so_far.desk;
    let done = so_far.done;
    let expected = so_far.expected;
    let got = crate::gather::gather(
        expected,
        so_far.at,
        frames,
        stamps,
        shape.channels,
        stride,
        inputs,
        block,
    );
    let count = got.count;
    let played = hrtf::process(
        desk, shape, count, PLACES, block, weights, row_of, taps, rings, block_ears,
    )
    .unwrap();
    put_ears(ears, ear_stride, done, block_ears, count);
    let left = played.desk;
    let rested = rest_if(got.restart, left, shape.speakers, shape.length, rings);
    let next = got.expected;
    Turned {
        desk: rested,
        expected: next,
        at: got.at,
        done: done + count,
        unsettled: so_far.unsettled + played.unsettled,
    }
}

// Turns until the recording is over.
pub(crate) fn play(
    first: Turned,
    shape: ConvolverShape,
    frames: usize,
    stride: usize,
    stamps: &[u32],
    inputs: &[f32],
    weights: &[f64],
    row_of: &[usize; 8],
    taps: &[f32],
    rings: &mut [f32],
    ear_stride: usize,
    ears: &mut [f32],
    block: &mut [f32],
    block_ears: &mut [f32],
) -> Turned
    requires recording_checked { RecordingChecked (recording_of shape frames stride stamps.now inputs.now weights.now
        row_of.now
        taps.now ear_stride) }
    requires block_and_state_fit { BlockAndStateFit (recording_of shape frames stride stamps.now inputs.now weights.now
        row_of.now
        taps.now ear_stride) (state_with first.desk rings.old) block.old block_ears.old }
    requires ears_fit { EarsFit (recording_of shape frames stride stamps.now inputs.now weights.now row_of.now
        taps.now ear_stride) first }
    ensures turns_played { TurnsPlayed (recording_of shape frames stride stamps.now inputs.now
        weights.now
        row_of.now taps.now ear_stride)
        first rings.old ears.old result rings.new ears.new }
    ensures over { result.at ≡ frames }
{
    let mut so_far = first;
    // Kept: a turn takes as many recorded frames as fit its block, so that no range or iterator counts the turns.
    while so_far.at < frames {
        so_far = turn(
            so_far, shape, frames, stride, stamps, inputs, weights, row_of, taps, rings,
            ear_stride, ears, block, block_ears,
        );
    }
    so_far
}
