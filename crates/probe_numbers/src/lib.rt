// Answers the requests of the test program `probe` for conversions, roots, sines and cosines (docs/PROBE.md,
// operations 1 to 5).
//
// Test code, and promised by an equation all the same (specs/Answers.antt): how many bytes the answer has,
// and what the lent bytes hold afterwards, is what PROBE.md says, over what `numbers` and `angles` promise.
// No bytes, and the lent ones as they were, where the operation is another one or the arguments have another
// length than it takes. Every function takes any input.
#![tactic(auto)]

ghost use Rattle.std.specs.Prelude.{◌≡◌};
ghost use Rattle.angles.specs.Promise.{outcome};
ghost use Rattle.probe_answer.specs.Answers.{draft};
ghost use Rattle.probe_numbers.specs.Answers.{widen_answer, narrow_answer, root_answer, wave_of, wave_answer};
ghost use Rattle.formats.specs.Floats.{zero_float};
ghost use Rattle.refusals.specs.Numbers.{told};
ghost use Rattle.probe_numbers.specs.Answers.{answer_of};

use refusals::Refusal;

fn widen(args: &[u8], out: &mut [u8]) -> usize
    ensures { draft result out.new ≡ widen_answer args.now out.old }
{
    if args.len() != 4 {
        return 0;
    }
    let value = [numbers::widen(big_endian::get_f32(args, 0))];
    probe_answer::put_list(&value, out, 0)
}

fn narrow(args: &[u8], out: &mut [u8]) -> usize
    ensures { draft result out.new ≡ narrow_answer args.now out.old }
{
    if args.len() != 8 {
        return 0;
    }
    let value = [numbers::narrow(big_endian::get_f64(args, 0))];
    probe_answer::put_list(&value, out, 0)
}

fn root(args: &[u8], out: &mut [u8]) -> usize
    ensures { draft result out.new ≡ root_answer args.now out.old }
{
    if args.len() != 8 {
        return 0;
    }
    let answer = numbers::root(big_endian::get_f64(args, 0));
    let value = [answer.unwrap_or(0.0)];
    probe_answer::put_refusal_and_f64s(refusals::number_in(answer), &value, out)
}

// 4 is the sine, and 5 the cosine.
fn wave(operation: u8, degrees: f64) -> Result<f64, Refusal>
    ensures { told zero_float result ≡ outcome (wave_of operation) degrees }
{
    if operation == 4 {
        return angles::sine(degrees);
    }
    angles::cosine(degrees)
}

fn sine_or_cosine(operation: u8, args: &[u8], out: &mut [u8]) -> usize
    ensures { draft result out.new ≡ wave_answer operation args.now out.old }
{
    if args.len() != 8 {
        return 0;
    }
    let answer = wave(operation, big_endian::get_f64(args, 0));
    let value = [answer.unwrap_or(0.0)];
    probe_answer::put_refusal_and_f64s(refusals::number_in(answer), &value, out)
}

// Puts the answer to a request into out, and answers how many bytes it has.
pub fn answer(operation: u8, args: &[u8], out: &mut [u8]) -> usize
    ensures { draft result out.new ≡ answer_of operation args.now out.old }
{
    match operation {
        1 => widen(args, out),
        2 => narrow(args, out),
        3 => root(args, out),
        4 | 5 => sine_or_cosine(operation, args, out),
        _ => 0,
    }
}
