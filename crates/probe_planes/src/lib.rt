// Answers the requests of the test program `probe` for blocks of the panner and of the decoder
// (docs/PROBE.md, operations 14 and 16).
//
// A block is planes of frames in and planes of frames out. Test code, and promised by equations all the same:
// `answer` puts what PROBE.md says, in its order, of the block that `panner` or `ambisonic_decoder` promises
// for what stands in the request; and nothing where the arguments have not the length that the operation
// takes, or where there is no such operation here. It takes any input.
#![tactic(auto)]

ghost use Rattle.std.specs.Prelude.{◌≡◌, ◌+◌, ◌*◌, length};
ghost use Rattle.probe_answer.specs.Answers.{draft};
ghost use Rattle.probe_planes.specs.Answers.{command_at, panned_answer, pan_answer, decoded_answer, decode_answer};
ghost use Rattle.probe_planes.specs.Answers.{answer_of};

use harmonics::Direction;
use panner::Command;
use probe_request::{MOST_SAMPLES, MOST_WEIGHTS};

// A panner command: 0 a stereo position, 1 a surround azimuth, any other number a direction with an order.
fn command(args: &[u8]) -> Command
    ensures { result ≡ command_at args.now }
{
    let angle = big_endian::get_f64(args, 5);
    let elevation = big_endian::get_f64(args, 13);
    let order = probe_request::number(args, 21, 8);
    match probe_request::number(args, 4, 1) {
        0 => Command::Stereo(angle),
        1 => Command::Surround(angle),
        _ => Command::Ambisonic(
            Direction {
                azimuth: angle,
                elevation,
            },
            order,
        ),
    }
}

// Plays a block at a command: after the lengths of both lists stand the command, the layout, frames and stride, then
// both lists. What the lists lent held before does not matter.
fn pan_lent(args: &[u8], input: &mut [f32], planes: &mut [f32], out: &mut [u8]) -> usize
    requires { length args.now ≡ 54 + 4 * length input.old + 4 * length planes.old }
    ensures { draft result out.new ≡ panned_answer args.now (length input.old)
        (length planes.old) out.old }
{
    let planes_at = 54 + 4 * input.len();
    probe_request::get_list(args, 54, input);
    probe_request::get_list(args, planes_at, planes);
    let panned = panner::process(
        command(args),
        probe_request::layout(
            probe_request::number(args, 29, 1),
            probe_request::number(args, 30, 8),
        ),
        probe_request::number(args, 38, 8),
        probe_request::number(args, 46, 8),
        input,
        planes,
    );
    probe_answer::put_played(
        refusals::number_in(panned),
        panned.unwrap_or(0),
        planes,
        out,
    )
}

// Lends as many samples as the arguments say first.
fn pan(args: &[u8], out: &mut [u8]) -> usize
    ensures { draft result out.new ≡ pan_answer args.now out.old }
{
    let i = probe_request::lent(args, 0, 2, MOST_SAMPLES);
    let o = probe_request::lent(args, 2, 2, MOST_SAMPLES);
    if args.len() != 54 + 4 * i + 4 * o {
        return 0;
    }
    let mut input = [0.0f32; MOST_SAMPLES];
    let mut planes = [0.0f32; MOST_SAMPLES];
    pan_lent(args, &mut input[..i], &mut planes[..o], out)
}

// Plays a block through a matrix of weights: after the lengths of the three lists stand outputs, channels, frames and
// stride, then the lists. What the lists lent held before does not matter.
fn decode_lent(
    args: &[u8],
    weights: &mut [f64],
    inputs: &mut [f32],
    planes: &mut [f32],
    out: &mut [u8],
) -> usize
    requires { length args.now ≡ 38 + 8 * length weights.old + 4 * length inputs.old + 4 * length
        planes.old }
    ensures { draft result out.new ≡ decoded_answer args.now (length weights.old)
        (length inputs.old) (length planes.old) out.old }
{
    let inputs_at = 38 + 8 * weights.len();
    let planes_at = inputs_at + 4 * inputs.len();
    probe_request::get_list(args, 38, weights);
    probe_request::get_list(args, inputs_at, inputs);
    probe_request::get_list(args, planes_at, planes);
    let decoded = ambisonic_decoder::process(
        weights,
        probe_request::number(args, 6, 8),
        probe_request::number(args, 14, 8),
        probe_request::number(args, 22, 8),
        probe_request::number(args, 30, 8),
        inputs,
        planes,
    );
    probe_answer::put_played(
        refusals::number_in(decoded),
        decoded.unwrap_or(0),
        planes,
        out,
    )
}

// Lends as many weights and samples as the arguments say first.
fn decode(args: &[u8], out: &mut [u8]) -> usize
    ensures { draft result out.new ≡ decode_answer args.now out.old }
{
    let w = probe_request::lent(args, 0, 2, MOST_WEIGHTS);
    let i = probe_request::lent(args, 2, 2, MOST_SAMPLES);
    let o = probe_request::lent(args, 4, 2, MOST_SAMPLES);
    if args.len() != 38 + 8 * w + 4 * i + 4 * o {
        return 0;
    }
    let mut weights = [0.0f64; MOST_WEIGHTS];
    let mut inputs = [0.0f32; MOST_SAMPLES];
    let mut planes = [0.0f32; MOST_SAMPLES];
    decode_lent(
        args,
        &mut weights[..w],
        &mut inputs[..i],
        &mut planes[..o],
        out,
    )
}

// Puts the answer to a request into out: how many bytes, 0 where the arguments have not the length that the
// operation takes, or where there is no such operation here.
pub fn answer(operation: u8, args: &[u8], out: &mut [u8]) -> usize
    ensures { draft result out.new ≡ answer_of operation args.now out.old }
{
    match operation {
        14 => pan(args, out),
        16 => decode(args, out),
        _ => 0,
    }
}
