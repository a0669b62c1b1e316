// Renders a drill script: plays one voice at the directions that a lent list of cues gives (document 02, E1).
//
// The voice at a frame is at the direction of the last cue not after it; before the first cue every output is
// 0.0, whatever the sample. `render` plays one input plane to the planes of an ambisonic order. What is
// played at a direction is what `panner` plays there, by its own words.
//
// It takes any input; its promise (specs/Promise.antt) is one equation for the refusal, the sample count and
// the output planes. The frames are gone through a segment at a time: `cues` finds the cue that holds and how
// long it does, and its gains are computed once.
#![tactic(auto)]

ghost use Rattle.std.specs.Prelude.{◌≡◌, ◌+◌, ◌^◌, ◌≤◌, ◌<◌, min, ltb};
ghost use Rattle.refusals.specs.Numbers.{number_in};
ghost use Rattle.planes.specs.Planes.{with_frame, with_frames};
ghost use Rattle.planes.specs.Blocks.{played};
ghost use Rattle.script.specs.Rendering.{silent, silent_part};
ghost use Rattle.script.specs.Promise.{RenderPromise};
ghost use Rattle.script.specs.Computed.{Speakable, Spoken, refusal_by};

use refusals::Refusal;

// As many as a panner block may have.
const MOST_FRAMES: usize = 4096;

const MOST_CUES: usize = 256;

fn frame_of(first: u64, done: usize) -> u64
    requires { first + done < 2 ^ 64 }
    ensures { result ≡ first + done }
{
    first + done as u64
}

// The first frame that is not of the segment.
fn until(from: usize, frames: usize, left: u64) -> usize
    requires { from ≤ frames }
    ensures { result ≡ min (from + left) frames }
{
    from + (left as usize).min(frames - from)
}

// Puts 0.0 in each plane of a frame.
fn mute(out: &mut [f32], stride: usize, frame: usize, planes: usize)
    ensures { out.new ≡ with_frame out.old stride frame (silent planes) }
{
    for p in 0..planes {
        planes::put_sample(out, stride, p, frame, 0.0);
    }
}

// Puts 0.0 in each plane of the frames from one to before another.
fn silence(out: &mut [f32], stride: usize, from: usize, to: usize, planes: usize)
    ensures { out.new ≡ with_frames out.old stride from (silent_part from to planes) }
{
    for n in from..to {
        mute(out, stride, n, planes);
    }
}

// Plays a segment from a frame on, and says where it ends.
fn speak(
    out: &mut [f32],
    stride: usize,
    from: usize,
    frames: usize,
    order: usize,
    held: cues::Held,
    input: &[f32],
) -> usize
    requires { (from ≤ frames) × Speakable order held }
    ensures { (result ≡ min (from + held.left) frames)
        × (out.new ≡ with_frames out.old stride from
        (Spoken order held stride from result input.now)) }
{
    let to = until(from, frames, held.left);
    if let Some(direction) = held.direction {
        let command = panner::Command::Ambisonic(direction, order);
        let played = panner::command_gains(command, channel::Layout::Mono).unwrap();
        panner::play_part(out, stride, from, to, played.planes, played.gains, input);
        return to;
    }
    let planes = channel::ambisonic_channel_count(order).unwrap();
    silence(out, stride, from, to, planes);
    to
}

// Whether the last frame would have a number past the largest.
fn runs_past(first: u64, frames: usize) -> bool
    ensures { result ≡ ltb (2 ^ 64) (first + frames) }
{
    if frames == 0 {
        return false;
    }
    u64::MAX - first < (frames - 1) as u64
}

// Refuses by the first test that holds, before anything is played.
fn check(
    order: usize,
    judged: cues::Judgement,
    first: u64,
    frames: usize,
    stride: usize,
    inputs: usize,
    outs: usize,
) -> Result<(), Refusal>
    ensures { number_in result ≡ refusal_by (record { order = order; first = first; frames = frames; stride = stride })
        judged inputs outs }
{
    let channels = channel::ambisonic_channel_count(order)?;
    if !judged.good {
        return Err(Refusal::Angle);
    }
    if checks::is_block_unfit(inputs, 1, outs, channels, stride, frames) {
        return Err(Refusal::Misfit);
    }
    if runs_past(first, frames) {
        return Err(Refusal::Misfit);
    }
    if MOST_FRAMES < frames {
        return Err(Refusal::Frames);
    }
    if !judged.rising {
        return Err(Refusal::CueOrder);
    }
    if MOST_CUES < judged.seen {
        return Err(Refusal::CueCount);
    }
    Ok(())
}

// Plays a stretch of one input plane, from the frame `first` on, at the directions of the cues, or refuses it.
pub fn render(
    cues: &[cues::Cue],
    order: usize,
    first: u64,
    frames: usize,
    stride: usize,
    input: &[f32],
    out: &mut [f32],
) -> Result<usize, Refusal>
    ensures { RenderPromise (record { order = order; first = first; frames = frames; stride = stride })
        cues.now input.now out.old (played result) out.new }
{
    let judged = cues::judged(cues);
    check(order, judged, first, frames, stride, input.len(), out.len())?;
    let mut done = 0;
    // Kept: a turn plays a segment of any length, so that the frames are no range to go through.
    while done < frames {
        let held = cues::holding(cues, frame_of(first, done));
        done = speak(&mut *out, stride, done, frames, order, held, input);
    }
    Ok(frames)
}
