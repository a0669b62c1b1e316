// The loop over the input: a read, a turn, and a write. What has come of the line no contract can name, so a step
// promises that some bytes more have come, and the loop that its answer is that of some line.
ghost use Rattle.std.specs.Prelude.{◌≡◌, false, List, ℕ, ◌*◌, ◌<◌, eqb, is_none, length, replicate, IfOk, IfErr};
ghost use Rattle.ears_file.specs.declared.RunError.{RunError};
ghost use Rattle.ears_file.specs.declared.turn.Turn.{Turn};
ghost use Rattle.io.specs.Counts.{IsPrefixLen};
ghost use Rattle.formats.specs.Floats.{zero_float};
ghost use Rattle.hrtf_rings.specs.State.{StateFits};
ghost use Rattle.hrtf_checks.specs.Call.{setup_of};
ghost use Rattle.ears_file.specs.Lines.{ends_as, outcome_of};
ghost use Rattle.ears_file.specs.Promise.{Ends};
ghost use Rattle.ears_file.specs.Turns.{BlocksAccepted, end_of, turn_or_none, Further};

use crate::turn::{Progress, Turn};
use crate::{RunCounts, RunError};
use bank_form::Fault;
use hrtf_checks::ConvolverShape;
use refusals::Refusal;
use std::io::{Read, Write};

// Writes the first bytes of a list; a failure is told.
fn write_some<E: Eprint, W: Write>(
    rt: &E,
    out: &mut W,
    size: usize,
    text: &[u8],
) -> Result<(), RunError>
    requires { IsPrefixLen size text.now }
    ensures { IfErr result (λ e. e ≡ RunError.Failed) }
{
    match out.write_all(&text[..size]) {
        Ok(()) => Ok(()),
        Err(e) => {
            files::fail(rt, b"ears: writing the ears", e);
            Err(RunError::Failed)
        }
    }
}

// Reads, plays and writes once, and answers the turn: a part more has come. Where none has, the line is over, and there
// is no turn. Where a read or a write fails, a part more has come all the same.
fn step<E: Eprint, L: Read, W: Write>(
    rt: &E,
    progress: Progress,
    line: &mut L,
    out: &mut W,
    limit: usize,
    shape: ConvolverShape,
    weights: &[f64],
    row_of: &[usize; 8],
    taps: &[f32],
    rings: &mut [f32],
    bytes: &mut [u8; 24576],
    inputs: &mut [f32; 6144],
    ears: &mut [f32; 2048],
    text: &mut [u8; 8192],
) -> Result<Option<Turn>, RunError>
    requires blocks_accepted { BlocksAccepted shape weights.now row_of.now taps.now }
    requires state_fits { StateFits shape.speakers shape.length (record { rings = rings.old; desk = progress.desk }) }
    requires held_bound { progress.held < 24 }
    ensures failed { IfErr result (λ e. e ≡ RunError.Failed) }
    ensures failed_further { IfErr result (λ e. (part : List ℕ) × (turn : Turn)
        × Further (setup_of shape weights.now row_of.now taps.now)
        progress rings.old bytes.old part turn rings.new bytes.new
        text.new) }
    ensures further { IfOk result (λ turn. (part : List ℕ) × (is_none turn ≡ eqb (length part) 0)
        × Further (setup_of shape weights.now row_of.now taps.now)
        progress rings.old bytes.old part (turn_or_none progress turn) rings.new bytes.new
        text.new) }
{
    let held = progress.held;
    let size = match files::read_some(line, held, limit, bytes) {
        Ok(size) => size,
        Err(e) => {
            files::fail(rt, b"ears: reading the line", e);
            return Err(RunError::Failed);
        }
    };
    if size == held {
        return Ok(None);
    }
    let turn = crate::turn::play(
        progress, size, bytes, shape, inputs, weights, row_of, taps, rings, ears, text,
    );
    write_some(rt, out, turn.bytes, text)?;
    Ok(Some(turn))
}

// The end of the line: bytes that are still held are a part frame.
fn at_end(progress: Progress) -> Result<RunCounts, RunError>
    ensures { outcome_of result ≡ record { failed = false; ended = end_of progress } }
{
    if progress.held != 0 {
        return Err(RunError::Refused(Fault {
            refusal: Refusal::PartFrame,
            offset: 0,
        }));
    }
    Ok(RunCounts {
        frames: progress.frames,
        unsettled: progress.unsettled,
    })
}

// Plays the whole line, step by step, until it is over. A proved loop has to end, and nothing says that the line does:
// so the steps are counted up to a number that no run uses up.
pub(crate) fn play_all<E: Eprint, L: Read, W: Write>(
    rt: &E,
    line: &mut L,
    out: &mut W,
    limit: usize,
    shape: ConvolverShape,
    weights: &[f64],
    row_of: &[usize; 8],
    taps: &[f32],
    rings: &mut [f32],
) -> Result<RunCounts, RunError>
    requires blocks_accepted { BlocksAccepted shape weights.now row_of.now taps.now }
    requires rings_value { rings.old ≡ replicate (shape.speakers * shape.length) zero_float }
    ensures { Ends (ends_as (setup_of shape weights.now row_of.now taps.now))
        (outcome_of result) }
{
    let mut bytes = [0u8; 24576];
    let mut inputs = [0.0f32; 6144];
    let mut ears = [0.0f32; 2048];
    let mut text = [0u8; 8192];
    let mut progress = crate::turn::start();
    for _ in 0..u64::MAX {
        let stepped = step(
            rt,
            progress,
            line,
            out,
            limit,
            shape,
            weights,
            row_of,
            taps,
            rings,
            &mut bytes,
            &mut inputs,
            &mut ears,
            &mut text,
        )?;
        let Some(turn) = stepped else {
            return at_end(progress);
        };
        progress = turn.progress;
    }
    Err(RunError::Failed)
}
