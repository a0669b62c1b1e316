// Answers the requests of the test program `probe` for gains and matrices (docs/PROBE.md, operations 9 to 13
// and 15).
//
// Test code, and promised by an equation all the same (specs/Answers.antt): how many bytes the answer has,
// and what the lent bytes hold afterwards, is what PROBE.md says, over the outcomes that `matrix`,
// `harmonics`, `virtual_speaker`, `stereo`, `surround` and `decoder_matrix` promise. No bytes, and the lent
// ones as they were, where the operation is another one or the arguments have another length than it takes.
// Every public function takes any input.
#![tactic(auto)]

ghost use Rattle.std.specs.Prelude.{◌≡◌, ◌≤◌, length};
ghost use Rattle.probe_request.specs.Requests.{weights_lent};
ghost use Rattle.probe_answer.specs.Answers.{draft};
ghost use Rattle.probe_gains.specs.Answers.{direction_at, rows_answer, harmonics_answer, weighted_answer};
ghost use Rattle.probe_gains.specs.Answers.{stereo_answer, surround_answer, decoder_answer, matrix_answer};
ghost use Rattle.probe_gains.specs.Answers.{answer_of};

use harmonics::Direction;
use probe_request::MOST_WEIGHTS;
use stereo::StereoGains;

// What stands beside a refusal of a position.
const SILENT: StereoGains = StereoGains {
    left: 0.0,
    right: 0.0,
};

// The binaural rows of an order, put over the weights that stand in the arguments after their count and the order.
fn rows(args: &[u8], weights: &mut [f64], out: &mut [u8]) -> usize
    requires { length weights.old ≤ 300 }
    ensures { draft result out.new ≡ rows_answer (length weights.old) args.now
        out.old }
{
    if args.len() != 10 + 8 * weights.len() {
        return 0;
    }
    probe_request::get_list(args, 10, weights);
    let answer = matrix::compute_matrix(probe_request::number(args, 2, 8), weights);
    probe_answer::put_refusal_and_f64s(refusals::number_in(answer), weights, out)
}

// The matrix of a layout, put over the weights that stand in the arguments after their count, the order and the layout.
fn decoder_matrix(args: &[u8], weights: &mut [f64], out: &mut [u8]) -> usize
    requires { length weights.old ≤ 300 }
    ensures { draft result out.new ≡ decoder_answer (length weights.old) args.now
        out.old }
{
    if args.len() != 19 + 8 * weights.len() {
        return 0;
    }
    probe_request::get_list(args, 19, weights);
    let order = probe_request::number(args, 2, 8);
    let layout = probe_request::layout(
        probe_request::number(args, 10, 1),
        probe_request::number(args, 11, 8),
    );
    let answer = decoder_matrix::compute_decoder_matrix(order, layout, weights);
    probe_answer::put_refusal_and_f64s(refusals::number_in(answer), weights, out)
}

fn matrix(operation: u8, args: &[u8], weights: &mut [f64], out: &mut [u8]) -> usize
    requires { length weights.old ≤ 300 }
    ensures { draft result out.new ≡ matrix_answer operation (length weights.old)
        args.now out.old }
{
    if operation == 9 {
        return rows(args, weights, out);
    }
    decoder_matrix(args, weights, out)
}

// Lends as many weights as the arguments say first.
fn matrix_over(operation: u8, args: &[u8], out: &mut [u8]) -> usize
    ensures { draft result out.new ≡ matrix_answer operation (weights_lent args.now 0)
        args.now out.old }
{
    let mut weights = [0.0f64; MOST_WEIGHTS];
    let w = probe_request::lent(args, 0, 2, MOST_WEIGHTS);
    matrix(operation, args, &mut weights[..w], out)
}

// The direction that stands after an order.
fn direction(args: &[u8]) -> Direction
    ensures { result ≡ direction_at args.now 8 }
{
    Direction {
        azimuth: big_endian::get_f64(args, 8),
        elevation: big_endian::get_f64(args, 16),
    }
}

// The coefficients of a direction, up to an order.
fn coefficients(args: &[u8], out: &mut [u8]) -> usize
    ensures { draft result out.new ≡ harmonics_answer args.now out.old }
{
    if args.len() != 24 {
        return 0;
    }
    let order = probe_request::number(args, 0, 8);
    let answer = harmonics::compute_sh_coefficients(order, direction(args));
    let gains = answer.unwrap_or([0.0; 16]);
    probe_answer::put_refusal_and_f64s(refusals::number_in(answer), &gains, out)
}

// The same with max-rE weights.
fn weighted(args: &[u8], out: &mut [u8]) -> usize
    ensures { draft result out.new ≡ weighted_answer args.now out.old }
{
    if args.len() != 24 {
        return 0;
    }
    let order = probe_request::number(args, 0, 8);
    let answer = virtual_speaker::compute_sh_coefficients_max_re(order, direction(args));
    let weights = answer.unwrap_or([0.0; 16]);
    probe_answer::put_refusal_and_f64s(refusals::number_in(answer), &weights, out)
}

// The left and the right gain of a position.
fn stereo(args: &[u8], out: &mut [u8]) -> usize
    ensures { draft result out.new ≡ stereo_answer args.now out.old }
{
    if args.len() != 8 {
        return 0;
    }
    let answer = stereo::calculate_stereo_gains(big_endian::get_f64(args, 0));
    let gains = answer.unwrap_or(SILENT);
    let gains = [gains.left, gains.right];
    probe_answer::put_refusal_and_f64s(refusals::number_in(answer), &gains, out)
}

// The gains of an azimuth on a layout.
fn surround(args: &[u8], out: &mut [u8]) -> usize
    ensures { draft result out.new ≡ surround_answer args.now out.old }
{
    if args.len() != 17 {
        return 0;
    }
    let layout = probe_request::layout(
        probe_request::number(args, 0, 1),
        probe_request::number(args, 1, 8),
    );
    let answer = surround::calculate_vbap_gains(layout, big_endian::get_f64(args, 9));
    let gains = answer.unwrap_or([0.0; 16]);
    probe_answer::put_refusal_and_f64s(refusals::number_in(answer), &gains, out)
}

// Puts the answer to a request into out, and answers how many bytes it has.
pub fn answer(operation: u8, args: &[u8], out: &mut [u8]) -> usize
    ensures { draft result out.new ≡ answer_of operation args.now out.old }
{
    match operation {
        9 | 15 => matrix_over(operation, args, out),
        10 => coefficients(args, out),
        11 => weighted(args, out),
        12 => stereo(args, out),
        13 => surround(args, out),
        _ => 0,
    }
}
