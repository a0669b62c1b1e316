// Answers the requests of the test program `probe` for the convolver (docs/PROBE.md, operations 17, 18 and 25).
//
// Test code, and promised by equations all the same (specs/Answers.antt): how many bytes the answer has and
// what they are is what `hrtf` promises for the desk, the counts and the lists that stand in the arguments,
// and `hrtf_rings` for a ring and taps of any lengths, one part behind the other. There are 0 bytes, and the lent
// ones are as they were, for any other operation and for arguments that have another length than the
// operation takes. The desk, the shape and the five lists are read, and a desk is put, by functions that the
// replay of a recording uses too (`probe_replay`): its requests begin as those for a block. Every public function
// takes any input.
#![tactic(auto)]

ghost use Rattle.std.specs.Prelude.{◌≡◌, length};
ghost use Rattle.hrtf.specs.Promise.{outcome, block_told};
ghost use Rattle.probe_answer.specs.Answers.{draft};
ghost use Rattle.probe_hrtf.specs.Requests.{desk_at, shape_at, listed, lengths, read_from, call_of, state_of};
ghost use Rattle.probe_hrtf.specs.Answers.{then_desk, then_counts, block_shown, block_by, block_answer, reset_by_of};
ghost use Rattle.probe_hrtf.specs.Answers.{reset_answer, sum_by, sum_answer, answer_of};

use hrtf::BlockAnswer;
use hrtf_checks::ConvolverShape;
use hrtf_desk::Desk;
use probe_request::{MOST_CELLS, MOST_SAMPLES, MOST_WEIGHTS};
use refusals::Refusal;

// Where the lists begin in a request for a block: behind five lengths, the desk, the four counts of the shape,
// frames and stride, and the rows of the eight speakers.
const LISTS: usize = 138;

// Where the cells begin in a request for a reset: behind a length, the desk, the speakers and L.
const CELLS: usize = 34;

// Where the cells begin in a request for a sum: behind two lengths and the newest.
const RING: usize = 12;

// The desk that stands from `at` on.
pub fn desk(args: &[u8], at: usize) -> Desk
    ensures { result ≡ desk_at args.now at }
{
    Desk {
        position: probe_request::number(args, at, 8),
        to_go: probe_request::number(args, probe_request::behind(args, at, 8, 1), 8),
    }
}

// The shape of a request for a block.
pub fn shape(args: &[u8]) -> ConvolverShape
    ensures { result ≡ shape_at args.now }
{
    ConvolverShape {
        channels: probe_request::number(args, 26, 8),
        speakers: probe_request::number(args, 34, 8),
        rows: probe_request::number(args, 42, 8),
        length: probe_request::number(args, 50, 8),
    }
}

// Puts a desk as the next part of an answer, which goes to `at`, and answers the place behind it.
pub fn put_desk(desk: Desk, out: &mut [u8], at: usize) -> usize
    ensures { draft result out.new ≡ then_desk (draft at out.old) desk }
{
    let after_position = probe_answer::put(desk.position as u64, 8, out, at);
    probe_answer::put(desk.to_go as u64, 8, out, after_position)
}

// Puts what is told of a block: of a refused one counts of 0, and the desk that was given.
fn put_counts(given: Desk, played: Result<BlockAnswer, Refusal>, out: &mut [u8]) -> usize
    ensures { draft result out.new ≡ then_counts (draft 0 out.old) (block_told given played) }
{
    let unplayed = BlockAnswer {
        samples: 0,
        unsettled: 0,
        desk: given,
    };
    let told = played.unwrap_or(unplayed);
    let after_refusal = probe_answer::put(refusals::number_in(played) as u64, 1, out, 0);
    let after_samples = probe_answer::put(told.samples as u64, 8, out, after_refusal);
    let after_unsettled = probe_answer::put(told.unsettled as u64, 8, out, after_samples);
    put_desk(told.desk, out, after_unsettled)
}

// Plays the block, the lists being read.
fn play(
    args: &[u8],
    inputs: &[f32],
    weights: &[f64],
    taps: &[f32],
    rings: &mut [f32],
    ears: &mut [f32],
    out: &mut [u8],
) -> usize
    ensures { draft result out.new ≡ block_shown
        (let lists = listed inputs.now weights.now taps.now rings.old
        ears.old in
        outcome (call_of args.now lists) (state_of args.now lists))
        out.old }
{
    let row_of = probe_request::eight(args, 74);
    let given = desk(args, 10);
    let played = hrtf::process(
        given,
        shape(args),
        probe_request::number(args, 58, 8),
        probe_request::number(args, 66, 8),
        inputs,
        weights,
        &row_of,
        taps,
        rings,
        ears,
    );
    let after_counts = put_counts(given, played, out);
    let after_rings = probe_answer::put_list(rings, out, after_counts);
    probe_answer::put_list(ears, out, after_rings)
}

// Fills five lists with what stands in the arguments from `at` on, one behind the other, and answers the
// place behind them.
pub fn get_lists(
    args: &[u8],
    at: usize,
    inputs: &mut [f32],
    weights: &mut [f64],
    taps: &mut [f32],
    rings: &mut [f32],
    ears: &mut [f32],
) -> usize
    ensures { record {
      lists = listed inputs.new weights.new taps.new rings.new
          ears.new;
      end = result;
    }
        ≡ read_from args.now at
        (listed inputs.old weights.old taps.old rings.old
        ears.old) }
{
    let at_weights = probe_request::behind(args, at, 4, inputs.len());
    let at_taps = probe_request::behind(args, at_weights, 8, weights.len());
    let at_rings = probe_request::behind(args, at_taps, 4, taps.len());
    let at_ears = probe_request::behind(args, at_rings, 4, rings.len());
    let end = probe_request::behind(args, at_ears, 4, ears.len());
    probe_request::get_list(args, at, inputs);
    probe_request::get_list(args, at_weights, weights);
    probe_request::get_list(args, at_taps, taps);
    probe_request::get_list(args, at_rings, rings);
    probe_request::get_list(args, at_ears, ears);
    end
}

// Plays the block where the arguments have the length of all lists, whatever they held.
fn process_lent(
    args: &[u8],
    inputs: &mut [f32],
    weights: &mut [f64],
    taps: &mut [f32],
    rings: &mut [f32],
    ears: &mut [f32],
    out: &mut [u8],
) -> usize
    ensures { draft result out.new ≡ block_by
        (lengths (listed inputs.old weights.old taps.old rings.old
        ears.old)) args.now out.old }
{
    let end = get_lists(args, LISTS, inputs, weights, taps, rings, ears);
    if args.len() != end {
        return 0;
    }
    play(args, inputs, weights, taps, rings, ears, out)
}

// Lends as much of each list as the arguments say first, behind which stand the numbers, and then the five lists.
fn process(args: &[u8], out: &mut [u8]) -> usize
    ensures { draft result out.new ≡ block_answer args.now out.old }
{
    let mut inputs = [0.0f32; MOST_SAMPLES];
    let mut weights = [0.0f64; MOST_WEIGHTS];
    let mut taps = [0.0f32; MOST_SAMPLES];
    let mut rings = [0.0f32; MOST_CELLS];
    let mut ears = [0.0f32; MOST_SAMPLES];
    let i = probe_request::lent(args, 0, 2, MOST_SAMPLES);
    let w = probe_request::lent(args, 2, 2, MOST_WEIGHTS);
    let t = probe_request::lent(args, 4, 2, MOST_SAMPLES);
    let r = probe_request::lent(args, 6, 2, MOST_CELLS);
    let e = probe_request::lent(args, 8, 2, MOST_SAMPLES);
    process_lent(
        args,
        &mut inputs[..i],
        &mut weights[..w],
        &mut taps[..t],
        &mut rings[..r],
        &mut ears[..e],
        out,
    )
}

// Reads the cells where the arguments have their length, whatever they held.
fn reset_lent(args: &[u8], rings: &mut [f32], out: &mut [u8]) -> usize
    ensures { draft result out.new ≡ reset_by_of (length rings.old) args.now
        out.old }
{
    if args.len() != probe_request::behind(args, CELLS, 4, rings.len()) {
        return 0;
    }
    probe_request::get_list(args, CELLS, rings);
    let given = desk(args, 2);
    let rested = hrtf::reset(
        given,
        probe_request::number(args, 18, 8),
        probe_request::number(args, 26, 8),
        rings,
    );
    let after_refusal = probe_answer::put(refusals::number_in(rested) as u64, 1, out, 0);
    let after_desk = put_desk(rested.unwrap_or(given), out, after_refusal);
    probe_answer::put_list(rings, out, after_desk)
}

// Lends as many cells as the arguments say first, behind which stand the desk, the speakers and L.
fn reset(args: &[u8], out: &mut [u8]) -> usize
    ensures { draft result out.new ≡ reset_answer args.now out.old }
{
    let mut rings = [0.0f32; MOST_CELLS];
    let r = probe_request::lent(args, 0, 2, MOST_CELLS);
    reset_lent(args, &mut rings[..r], out)
}

// Reads the cells and the taps where the arguments have the length of both, whatever they held.
fn convolve_lent(args: &[u8], ring: &mut [f32], taps: &mut [f32], out: &mut [u8]) -> usize
    ensures { draft result out.new ≡ sum_by (length ring.old) (length taps.old)
        args.now out.old }
{
    let at_taps = probe_request::behind(args, RING, 4, ring.len());
    if args.len() != probe_request::behind(args, at_taps, 4, taps.len()) {
        return 0;
    }
    probe_request::get_list(args, RING, ring);
    probe_request::get_list(args, at_taps, taps);
    let sum = [hrtf_rings::convolve(ring, probe_request::number(args, 4, 8), taps)];
    probe_answer::put_list(&sum, out, 0)
}

// Lends as many cells and taps as the arguments say first, behind which stand the newest, and then the two lists.
fn convolve(args: &[u8], out: &mut [u8]) -> usize
    ensures { draft result out.new ≡ sum_answer args.now out.old }
{
    let mut ring = [0.0f32; MOST_CELLS];
    let mut taps = [0.0f32; MOST_SAMPLES];
    let r = probe_request::lent(args, 0, 2, MOST_CELLS);
    let t = probe_request::lent(args, 2, 2, MOST_SAMPLES);
    convolve_lent(args, &mut ring[..r], &mut taps[..t], out)
}

// Puts the answer to a request into out, and says how many bytes it has: 0 where the operation is not one of these
// three, or the arguments have not the length that it takes.
pub fn answer(operation: u8, args: &[u8], out: &mut [u8]) -> usize
    ensures { draft result out.new ≡ answer_of operation args.now out.old }
{
    match operation {
        17 => process(args, out),
        18 => reset(args, out),
        25 => convolve(args, out),
        _ => 0,
    }
}
