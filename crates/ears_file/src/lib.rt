// Does the work of the program `ears` by file names: plays a line of 5.1 frames through a bank into the file
// of the ears (document 01, item 10; document 02, E2).
//
// `run` plays, and `result_line` gives the line that a program prints; a failure of the system is told on standard
// error, and then there is no line.
//
// The bank is judged first. The output is emptied in every case. The input may be of any length and come in
// parts of any size: a buffer of fixed size holds what has come of a frame that is not whole yet. No contract
// can name what is read or written. `run` promises that its answer is the one that item 10 gives for some
// bank and some line, whatever the system hands over; a bank that keeps the form is refused nowhere.
#![tactic(auto)]

ghost use Rattle.std.specs.Prelude.{◌≡◌, List, Float, pos, replicate, Ok};
ghost use Rattle.io.specs.Counts.{IsPrefixLen};
ghost use Rattle.bank_form.specs.Fault.{told_as_number};
ghost use Rattle.bank.specs.Reading.{bank_found, read_answer};
ghost use Rattle.ears_wire.specs.Promise.{Lined};
ghost use Rattle.ears_file.specs.declared.RunOutcome.{RunOutcome};
ghost use Rattle.ears_file.specs.Lines.{setup_with, refused_bank, ends_as, outcome_of, result_line};
ghost use Rattle.files.specs.Promise.{Found};
ghost use Rattle.ears_file.specs.Promise.{Ends, Answers};

use bank::BankRead;
use bank_form::Fault;
use channel::Layout;
use hrtf_checks::ConvolverShape;
use refusals::Refusal;
use std::io::{Read, Write};
use std::os::fd::AsRawFd;
use std::rt::Files;

mod input;
mod turn;

// How many frames a run played, and how many of them are unsettled.
#[derive(Clone, Copy)]
pub struct RunCounts {
    pub frames: u64,
    pub unsettled: u64,
}

// Why a run played no whole line: the system failed, which has been told; or the bank was refused, with the byte that
// is wrong, or the line for a part frame, which has no place.
#[derive(Clone, Copy)]
pub enum RunError {
    Failed,
    Refused(Fault),
}

// How a run ended, by document 01's number: refused, with the byte of the bank that is wrong, or 0 with the counts.
// Kept: `result_line` promises the line of any numbers, and not of those alone that a `Result` of `run` has.
#[derive(Clone, Copy)]
pub struct Ended {
    pub refusal: u8,
    pub place: u64,
    pub frames: u64,
    pub unsettled: u64,
}

// What is told of a run: whether the system failed, and how it ended otherwise.
#[derive(Clone, Copy)]
pub struct RunOutcome {
    pub failed: bool,
    pub ended: Ended,
}

// The number of a part frame, which is told without a place.
const PART_FRAME: u8 = 9;

// An end with no counts.
fn refused_at(refusal: Refusal, offset: usize) -> Ended
    ensures { result ≡ refused_bank (told_as_number (record { refusal = refusal; offset = offset })) }
{
    Ended {
        refusal: refusal.number(),
        place: offset as u64,
        frames: 0,
        unsettled: 0,
    }
}

// Plays the whole line with a bank that was read and keeps the form: six speakers are set up by it, and rings of the
// cells that they need are silent.
fn play_with<E: Eprint, L: Read, W: Write>(
    rt: &E,
    read: BankRead,
    azimuths: &[i16],
    elevations: &[i16],
    taps: &[f32],
    line: &mut L,
    out: &mut W,
    limit: usize,
) -> Result<RunCounts, RunError>
    requires { (before : List Float) × Found (replicate 8 (pos 0)) (replicate 8 (pos 0)) before
        (record {
          answer = read_answer (Ok read);
          azimuths = azimuths.now;
          elevations = elevations.now;
          taps = taps.now;
        }) }
    ensures { Ends (ends_as
        (setup_with (bank_found
        (record {
          answer = read_answer (Ok read);
          azimuths = azimuths.now;
          elevations = elevations.now;
          taps = taps.now;
        })))) (outcome_of result) }
{
    let mut weights = [0.0f64; 36];
    let mut row_of = [0usize; 8];
    let arranged = hrtf_setup::new_surround(
        Layout::Surround51,
        azimuths,
        elevations,
        read.rows,
        &mut weights,
        &mut row_of,
    )
    .unwrap();
    let shape = ConvolverShape {
        channels: arranged.channels,
        speakers: arranged.speakers,
        rows: read.rows,
        length: read.length,
    };
    let filters = 2 * read.rows * read.length;
    let cells = arranged.speakers * read.length;
    let mut rings = [0.0f32; 3072];
    input::play_all(
        rt,
        line,
        out,
        limit,
        shape,
        &weights,
        &row_of,
        &taps[..filters],
        &mut rings[..cells],
    )
}

// Plays the line that is open as `line` with the bank of a name, into the file of a name. No more than `limit`
// bytes are read at a time: the program lets its buffer decide, and the tests try other cuts.
pub fn run<R: Files + Eprint, L: Read>(
    rt: &R,
    bank: &[u8],
    line: &mut L,
    out: &[u8],
    limit: usize,
) -> Result<RunCounts, RunError>
where
    R::File: AsRawFd,
    ensures { Answers (outcome_of result) }
{
    let mut azimuths = [0i16; 8];
    let mut elevations = [0i16; 8];
    let mut taps = [0.0f32; 8192];
    let read = files::read_bank(rt, bank, &mut azimuths, &mut elevations, &mut taps);
    let opened = files::open_out(rt, out);
    let read = match read {
        Ok(read) => read,
        Err(fault) => return Err(RunError::Refused(fault)),
    };
    let mut to = match opened {
        Ok(file) => file,
        Err(e) => {
            files::fail(rt, out, e);
            return Err(RunError::Failed);
        }
    };
    let run = play_with(
        rt,
        read,
        &azimuths,
        &elevations,
        &taps,
        line,
        &mut to,
        limit,
    );
    if let Err(e) = files::close(to) {
        files::fail(rt, out, e);
        return Err(RunError::Failed);
    }
    run
}

// What a run is told by: what `run` answers, or its numbers.
pub trait ToOutcome: Copy {
    ghost outcome: { Self → RunOutcome };

    // The same in numbers.
    fn to_outcome(self) -> RunOutcome
        ensures { result ≡ outcome self };
}

impl ToOutcome for RunOutcome {
    ghost outcome = { λ r. r };

    fn to_outcome(self) -> RunOutcome {
        self
    }
}

impl ToOutcome for Result<RunCounts, RunError> {
    ghost outcome = { outcome_of };

    fn to_outcome(self) -> RunOutcome {
        match self {
            Ok(counts) => RunOutcome {
                failed: false,
                ended: Ended {
                    refusal: 0,
                    place: 0,
                    frames: counts.frames,
                    unsettled: counts.unsettled,
                },
            },
            Err(RunError::Failed) => RunOutcome {
                failed: true,
                ended: refused_at(Refusal::PartFrame, 0),
            },
            Err(RunError::Refused(fault)) => RunOutcome {
                failed: false,
                ended: refused_at(fault.refusal, fault.offset),
            },
        }
    }
}

// Puts the line of an outcome: none for a run that failed, and a refusal with its place, but for a part frame.
fn outcome_line(run: RunOutcome, out: &mut [u8]) -> usize
    ensures lined { Lined out.old (result_line run) result out.new }
    ensures room { IsPrefixLen result out.new }
{
    if run.failed {
        return 0;
    }
    let ended = run.ended;
    if ended.refusal == 0 {
        return ears_wire::frames_line(ended.frames, ended.unsettled, out);
    }
    if ended.refusal == PART_FRAME {
        return ears_wire::refused_line(ended.refusal, out);
    }
    ears_wire::refused_at_line(ended.refusal, ended.place, out)
}

// Puts the line that a run is told by at the start of out, and answers its length: none for a run that failed,
// which is told on standard error.
pub fn result_line<T: ToOutcome>(run: T, out: &mut [u8]) -> usize
    ensures lined { Lined out.old (result_line (T.outcome run)) result out.new }
    ensures room { IsPrefixLen result out.new }
{
    outcome_line(run.to_outcome(), out)
}
