// Answers the requests of the test program `probe` for a stretch of a drill script (docs/PROBE.md, operation 21).
//
// An accepted stretch may have more outputs than fit into a request or an answer: so the outputs are an array of the
// program's own, of which the request lends the first and is shown a part. Test code, and promised by an equation
// all the same: `answer` puts what PROBE.md says, in its order, of the block that `script` promises for what stands
// in the request; and nothing where the arguments have not the length that the operation takes, where more cues or
// outputs are asked for than there is room for, or outputs that are not lent, or where there is no such operation
// here. It takes any input.
//
// `render_first` alone lends a list of structs: the first cues of the array.
#![tactic(auto)]

ghost use Rattle.std.specs.Prelude.{◌≡◌, ◌+◌, ◌*◌, ◌^◌, ◌≤◌, ◌<◌, length, take};
ghost use Rattle.planes.specs.Blocks.{played};
ghost use Rattle.script.specs.Promise.{RenderPromise};
ghost use Rattle.probe_answer.specs.Answers.{draft};
ghost use Rattle.probe_script.specs.Answers.{cue_at, cues_at, fits, rendered, rendered_answer, script_answer};
ghost use Rattle.probe_script.specs.Answers.{answer_of};

use cues::Cue;
use harmonics::Direction;
use probe_request::MOST_SAMPLES;
use refusals::Refusal;
use std::array;

// One more than a list may have, so that one which is too long can be lent.
const MOST_CUES: usize = 257;

// More than the planes of an accepted stretch of the first order have, so that one which is too long can be lent.
const MOST_OUTPUTS: usize = 16400;

// As many samples as an answer has room for.
const MOST_SHOWN: usize = 16380;

// The cue that stands from a place on.
fn cue(args: &[u8], at: usize) -> Cue
    requires { at + 16 < 2 ^ 64 }
    ensures { result ≡ cue_at args.now at }
{
    let frame = probe_request::number(args, at, 8);
    let azimuth = big_endian::get_f64(args, at + 8);
    let elevation = big_endian::get_f64(args, at + 16);
    let direction = Direction { azimuth, elevation };
    Cue {
        frame: frame as u64,
        direction,
    }
}

// An array of as many cues as there is room for, whatever stands behind those that the request gives.
fn all_cues(args: &[u8]) -> [Cue; MOST_CUES]
    ensures { result ≡ cues_at args.now 257 }
{
    array::from_fn(|k| cue(args, 46 + k * 24))
}

// Renders at the first cues of an array.
fn render_first(
    cues: [Cue; MOST_CUES],
    count: usize,
    order: usize,
    first: u64,
    frames: usize,
    stride: usize,
    input: &[f32],
    out: &mut [f32],
) -> Result<usize, Refusal>
    requires { count ≤ 257 }
    ensures { RenderPromise (record { order = order; first = first; frames = frames; stride = stride })
        (take count cues) input.now out.old (played result) out.new }
{
    script::render(&cues[..count], order, first, frames, stride, input, out)
}

// Renders a stretch at so many cues: what the input lent held before does not matter.
fn render_lent(
    args: &[u8],
    count: usize,
    input: &mut [f32],
    planes: &mut [f32],
) -> Result<usize, Refusal>
    requires { (count ≤ 257) × (length args.now ≡ 46 + 24 * count + 4 * length input.old) }
    ensures { record { answer = played result; out = planes.new } ≡ rendered args.now count
        (length input.old) planes.old }
{
    probe_request::get_list(args, 46 + 24 * count, input);
    render_first(
        all_cues(args),
        count,
        probe_request::number(args, 10, 8),
        probe_request::number(args, 18, 8) as u64,
        probe_request::number(args, 26, 8),
        probe_request::number(args, 34, 8),
        input,
        planes,
    )
}

// Renders a stretch, and shows `n` of the outputs lent, from `at` on.
fn show_lent(
    args: &[u8],
    count: usize,
    at: usize,
    n: usize,
    input: &mut [f32],
    planes: &mut [f32],
    out: &mut [u8],
) -> usize
    requires { (count ≤ 257) × (length args.now ≡ 46 + 24 * count + 4 * length input.old)
        × (at + n ≤ length planes.old) }
    ensures { draft result out.new ≡ rendered_answer args.now count (length input.old)
        planes.old at n out.old }
{
    let answer = render_lent(args, count, input, planes);
    let shown = &planes[at..at + n];
    probe_answer::put_played(refusals::number_in(answer), answer.unwrap_or(0), shown, out)
}

// Whether there is room for so many cues and outputs, and the part that is shown lies inside those.
fn fits_room(count: usize, o: usize, at: usize, n: usize) -> bool
    ensures { result ≡ fits count o at n }
{
    count <= MOST_CUES && o <= MOST_OUTPUTS && at <= o && n <= o - at
}

// Lends as many samples as the arguments say first, the outputs all holding the one that the request gives.
fn stretch(args: &[u8], out: &mut [u8]) -> usize
    ensures { draft result out.new ≡ script_answer args.now out.old }
{
    let count = probe_request::number(args, 0, 2);
    let i = probe_request::lent(args, 2, 2, MOST_SAMPLES);
    let o = probe_request::number(args, 4, 2);
    let at = probe_request::number(args, 6, 2);
    let n = probe_request::lent(args, 8, 2, MOST_SHOWN);
    if !fits_room(count, o, at, n) {
        return 0;
    }
    if args.len() != 46 + 24 * count + 4 * i {
        return 0;
    }
    let held = big_endian::get_f32(args, 42);
    let mut input = [0.0f32; MOST_SAMPLES];
    let mut planes = [held; MOST_OUTPUTS];
    show_lent(args, count, at, n, &mut input[..i], &mut planes[..o], out)
}

// Puts the answer to a request into out: how many bytes, 0 where none is given, or where there is no such operation
// here.
pub fn answer(operation: u8, args: &[u8], out: &mut [u8]) -> usize
    ensures { draft result out.new ≡ answer_of operation args.now out.old }
{
    match operation {
        21 => stretch(args, out),
        _ => 0,
    }
}
