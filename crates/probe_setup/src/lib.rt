// Answers the requests of the test program `probe` for setting up the convolver (docs/PROBE.md, operations 19
// and 20).
//
// Test code, and promised by equations all the same: `answer` puts what PROBE.md says, in its order, of the
// arrangement that `hrtf_setup` promises for what stands in the request; and nothing where the arguments have
// not the length that the operation takes, or where there is no such operation here. It takes any input.
#![tactic(auto)]

ghost use Rattle.std.specs.Prelude.{◌≡◌, ◌+◌, ◌*◌, ◌≤◌, length};
ghost use Rattle.big_endian.specs.Fields.{field_at};
ghost use Rattle.hrtf_setup.specs.Arrangement.{arrangement, setup_answer};
ghost use Rattle.probe_answer.specs.Answers.{draft};
ghost use Rattle.probe_setup.specs.Answers.{shown, wanted_at, arranged_answer, set_up_answer, answer_of};

use hrtf_setup::Arranged;
use probe_request::{MOST_AZIMUTHS, MOST_WEIGHTS};
use refusals::Refusal;

// What a refused set-up has.
const NOTHING: Arranged = Arranged {
    speakers: 0,
    channels: 0,
};

// Puts the answer, and the rows and the weights as they stand.
fn put_arranged(
    answer: Result<Arranged, Refusal>,
    row_of: &[usize; 8],
    weights: &[f64],
    out: &mut [u8],
) -> usize
    ensures { draft result out.new ≡ shown
        (record { answer = setup_answer answer; weights = weights.now; rows = row_of.now })
        out.old }
{
    let arranged = answer.unwrap_or(NOTHING);
    let a = probe_answer::put(refusals::number_in(answer) as u64, 1, out, 0);
    let b = probe_answer::put(arranged.speakers as u64, 8, out, a);
    let c = probe_answer::put(arranged.channels as u64, 8, out, b);
    let d = probe_answer::put_list(row_of, out, c);
    probe_answer::put_list(weights, out, d)
}

// 19 sets up a layout, 20 the virtual speakers for an order, which stands in the same place.
fn arrange(
    operation: u8,
    args: &[u8],
    azimuths: &[i16],
    elevations: &[i16],
    weights: &mut [f64],
    row_of: &mut [usize; 8],
) -> Result<Arranged, Refusal>
    ensures { record { answer = setup_answer result; weights = weights.new; rows = row_of.new }
        ≡ arrangement (wanted_at operation args.now) azimuths.now elevations.now
        (field_at args.now 4 8) weights.old row_of.old }
{
    let rows = probe_request::number(args, 4, 8);
    if operation == 19 {
        let layout = probe_request::layout(
            probe_request::number(args, 76, 1),
            probe_request::number(args, 77, 8),
        );
        return hrtf_setup::new_surround(layout, azimuths, elevations, rows, weights, row_of);
    }
    let order = probe_request::number(args, 76, 8);
    hrtf_setup::new_ambisonic(order, azimuths, elevations, rows, weights, row_of)
}

// The three lists are read from `at` on. What they held before does not matter.
fn set_up_lent(
    operation: u8,
    at: usize,
    args: &[u8],
    azimuths: &mut [i16],
    elevations: &mut [i16],
    weights: &mut [f64],
    out: &mut [u8],
) -> usize
    requires { length args.now ≡ at + 2 * length azimuths.old + 2 * length elevations.old + 8 * length
        weights.old }
    ensures { draft result out.new ≡ arranged_answer operation args.now at
        (length azimuths.old) (length elevations.old) (length weights.old)
        out.old }
{
    let elevations_at = at + 2 * azimuths.len();
    let weights_at = elevations_at + 2 * elevations.len();
    probe_request::get_list(args, at, azimuths);
    probe_request::get_list(args, elevations_at, elevations);
    probe_request::get_list(args, weights_at, weights);
    let mut row_of = probe_request::eight(args, 12);
    let arranged = arrange(operation, args, azimuths, elevations, weights, &mut row_of);
    put_arranged(arranged, &row_of, weights, out)
}

// Lends as many azimuths, elevations and weights as the arguments say first.
fn set_up(operation: u8, at: usize, args: &[u8], out: &mut [u8]) -> usize
    requires { at ≤ 85 }
    ensures { draft result out.new ≡ set_up_answer operation args.now at out.old }
{
    let a = probe_request::lent(args, 0, 1, MOST_AZIMUTHS);
    let e = probe_request::lent(args, 1, 1, MOST_AZIMUTHS);
    let w = probe_request::lent(args, 2, 2, MOST_WEIGHTS);
    if args.len() != at + 2 * a + 2 * e + 8 * w {
        return 0;
    }
    let mut azimuths = [0i16; MOST_AZIMUTHS];
    let mut elevations = [0i16; MOST_AZIMUTHS];
    let mut weights = [0.0f64; MOST_WEIGHTS];
    set_up_lent(
        operation,
        at,
        args,
        &mut azimuths[..a],
        &mut elevations[..e],
        &mut weights[..w],
        out,
    )
}

// Puts the answer to a request into out: how many bytes, 0 where the arguments have not the length that the
// operation takes, or where there is no such operation here.
pub fn answer(operation: u8, args: &[u8], out: &mut [u8]) -> usize
    ensures { draft result out.new ≡ answer_of operation args.now out.old }
{
    match operation {
        19 => set_up(19, 85, args, out),
        20 => set_up(20, 84, args, out),
        _ => 0,
    }
}
