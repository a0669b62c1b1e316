// Answers the requests of the test program `probe` for the replay of a recorded line (docs/PROBE.md, operation 22).
//
// Test code, and promised by an equation all the same (specs/Answers.antt): how many bytes the answer has and what
// they are is what `replay` promises for the desk, the counts, what is expected and the lists that stand in the
// arguments, one part behind the other. There are 0 bytes, and the lent ones are as they were, for any other
// operation and for arguments that have another length than the operation takes. A request begins as one for a
// block of the convolver, and what is the same is read as there (`probe_hrtf`). `answer` takes any input.
#![tactic(auto)]

ghost use Rattle.std.specs.Prelude.{◌≡◌, length};
ghost use Rattle.replay.specs.Promise.{replay_told};
ghost use Rattle.probe_answer.specs.Answers.{draft};
ghost use Rattle.probe_hrtf.specs.Requests.{listed, lengths};
ghost use Rattle.probe_replay.specs.Requests.{expected_at, outcome_of};
ghost use Rattle.probe_replay.specs.Answers.{then_expected, then_counts, line_shown, line_by, line_answer, answer_of};

use hrtf_desk::Desk;
use probe_request::{MOST_CELLS, MOST_SAMPLES, MOST_WEIGHTS};
use refusals::Refusal;
use replay::Replayed;

// Where the lists begin: behind what a request for a block has before its lists, the number of stamps, the ear
// stride, and what is expected.
const LISTS: usize = 153;

// What is expected: a byte, 0 where there is no stamp, and the stamp.
fn expected(args: &[u8]) -> Option<u32>
    ensures { result ≡ expected_at args.now }
{
    if probe_request::number(args, 148, 1) == 0 {
        return None;
    }
    Some(big_endian::get(args, 149, 4) as u32)
}

fn put_expected(expected: Option<u32>, out: &mut [u8], at: usize) -> usize
    ensures { draft result out.new ≡ then_expected (draft at out.old) expected }
{
    match expected {
        None => {
            let after_mark = probe_answer::put(0, 1, out, at);
            probe_answer::put(0, 4, out, after_mark)
        }
        Some(stamp) => {
            let after_mark = probe_answer::put(1, 1, out, at);
            probe_answer::put(stamp as u64, 4, out, after_mark)
        }
    }
}

// Puts what is told of a replay: of a refused one counts of 0, and the desk and the stamp that were given.
fn put_counts(
    given: Desk,
    awaited: Option<u32>,
    played: Result<Replayed, Refusal>,
    out: &mut [u8],
) -> usize
    ensures { draft result out.new ≡ then_counts (draft 0 out.old) (replay_told given awaited played) }
{
    let unplayed = Replayed {
        samples: 0,
        unsettled: 0,
        late: 0,
        silent: 0,
        resets: 0,
        desk: given,
        expected: awaited,
    };
    let told = played.unwrap_or(unplayed);
    let after_refusal = probe_answer::put(refusals::number_in(played) as u64, 1, out, 0);
    let after_samples = probe_answer::put(told.samples as u64, 8, out, after_refusal);
    let after_unsettled = probe_answer::put(told.unsettled as u64, 8, out, after_samples);
    let after_late = probe_answer::put(told.late as u64, 8, out, after_unsettled);
    let after_silent = probe_answer::put(told.silent as u64, 8, out, after_late);
    let after_resets = probe_answer::put(told.resets as u64, 8, out, after_silent);
    let after_desk = probe_hrtf::put_desk(told.desk, out, after_resets);
    put_expected(told.expected, out, after_desk)
}

// Replays, the lists being read.
fn play(
    args: &[u8],
    inputs: &[f32],
    weights: &[f64],
    taps: &[f32],
    rings: &mut [f32],
    ears: &mut [f32],
    stamps: &[u32],
    out: &mut [u8],
) -> usize
    ensures { draft result out.new ≡ line_shown
        (outcome_of args.now
        (listed inputs.now weights.now taps.now rings.old
        ears.old) stamps.now)
        out.old }
{
    let row_of = probe_request::eight(args, 74);
    let given = probe_hrtf::desk(args, 10);
    let awaited = expected(args);
    let played = replay::replay(
        given,
        awaited,
        probe_hrtf::shape(args),
        probe_request::number(args, 58, 8),
        probe_request::number(args, 66, 8),
        stamps,
        inputs,
        weights,
        &row_of,
        taps,
        rings,
        probe_request::number(args, 140, 8),
        ears,
    );
    let after_counts = put_counts(given, awaited, played, out);
    let after_rings = probe_answer::put_list(rings, out, after_counts);
    probe_answer::put_list(ears, out, after_rings)
}

// Replays where the arguments have the length of all lists, whatever they held.
fn replay_lent(
    args: &[u8],
    inputs: &mut [f32],
    weights: &mut [f64],
    taps: &mut [f32],
    rings: &mut [f32],
    ears: &mut [f32],
    stamps: &mut [u32],
    out: &mut [u8],
) -> usize
    ensures { draft result out.new ≡ line_by
        (lengths (listed inputs.old weights.old taps.old rings.old
        ears.old)) (length stamps.old)
        args.now out.old }
{
    let at_stamps = probe_hrtf::get_lists(args, LISTS, inputs, weights, taps, rings, ears);
    if args.len() != probe_request::behind(args, at_stamps, 4, stamps.len()) {
        return 0;
    }
    probe_request::get_list(args, at_stamps, stamps);
    play(args, inputs, weights, taps, rings, ears, stamps, out)
}

// Lends as much of each list as the arguments say.
fn replay_line(args: &[u8], out: &mut [u8]) -> usize
    ensures { draft result out.new ≡ line_answer args.now out.old }
{
    let mut inputs = [0.0f32; MOST_SAMPLES];
    let mut weights = [0.0f64; MOST_WEIGHTS];
    let mut taps = [0.0f32; MOST_SAMPLES];
    let mut rings = [0.0f32; MOST_CELLS];
    let mut ears = [0.0f32; MOST_SAMPLES];
    let mut stamps = [0u32; MOST_SAMPLES];
    let i = probe_request::lent(args, 0, 2, MOST_SAMPLES);
    let w = probe_request::lent(args, 2, 2, MOST_WEIGHTS);
    let t = probe_request::lent(args, 4, 2, MOST_SAMPLES);
    let r = probe_request::lent(args, 6, 2, MOST_CELLS);
    let e = probe_request::lent(args, 8, 2, MOST_SAMPLES);
    let s = probe_request::lent(args, 138, 2, MOST_SAMPLES);
    replay_lent(
        args,
        &mut inputs[..i],
        &mut weights[..w],
        &mut taps[..t],
        &mut rings[..r],
        &mut ears[..e],
        &mut stamps[..s],
        out,
    )
}

// Puts the answer to a request into out, and says how many bytes it has: 0 where the operation is not this one, or the
// arguments have not the length that it takes.
pub fn answer(operation: u8, args: &[u8], out: &mut [u8]) -> usize
    ensures { draft result out.new ≡ answer_of operation args.now out.old }
{
    if operation != 22 {
        return 0;
    }
    replay_line(args, out)
}
