// Places a voice on a 5.1 line by the delivered panner, for a demonstration (document 01, item 4; document 02,
// E3).
//
// It reads records on standard input and writes 5.1 frames on standard output. All numbers are big-endian. A
// record has 136 bytes: an azimuth in degrees, an f64, then 32 samples of the voice, f32. For each record it
// writes 32 frames of six f32 (L, R, C, LFE, Ls, Rs), 768 bytes: what `panner::process` plays. It ends at the
// end of the input, for which a read that fails counts too. A part record there, an azimuth that is refused,
// more than 2^20 records, or an output that cannot be written ends it with a message on standard error, and
// nothing more is written; the status is 0 all the same.
//
// `place` says what a record is played to, and its promise is one equation for all of it (specs/Records.antt). Of
// what is read and written no contract can say anything, so the rest is proved safe and ending, and what the
// program writes is compared.
#![tactic(auto)]

ghost use Rattle.std.specs.Prelude.{◌≡◌, ◌≤◌, length};
ghost use mathlib.Core.List.{flat_map};
ghost use Rattle.big_endian.specs.Lists.{float_bytes};
ghost use Rattle.planes.specs.Planes.{frames_of};
ghost use Rattle.demo_line.specs.Records.{demo_voice_at, line_told, Places};

use channel::Layout;
use panner::Command;
use refusals::Refusal;
use std::array;
use std::io::Read;

// How many samples of the voice a record has, the channels that they are played to, and the samples of those.
const FRAMES: usize = 32;

const CHANNELS: usize = 6;

const SAMPLES: usize = CHANNELS * FRAMES;

// How many bytes an azimuth has, a sample, a record, and the frames that it is played to.
const AZIMUTH_BYTES: usize = 8;

const SAMPLE_BYTES: usize = 4;

const RECORD_BYTES: usize = AZIMUTH_BYTES + SAMPLE_BYTES * FRAMES;

const LINE_BYTES: usize = SAMPLE_BYTES * SAMPLES;

// A proved loop has to end, and nothing says that the input does. So many records are eleven minutes of
// voice at 48,000 samples a second, more than a demonstration has.
const MOST_RECORDS: usize = 1048576;

// The samples of the voice stand behind the azimuth.
fn voice_of(bytes: &[u8]) -> [f32; FRAMES]
    ensures { result ≡ demo_voice_at bytes.now }
{
    array::from_fn(|n| big_endian::get_f32(bytes, AZIMUTH_BYTES + n * SAMPLE_BYTES))
}

// The planes stand plane after plane, and the line goes out frame after frame.
fn line_of(planes: &[f32]) -> [u8; LINE_BYTES]
    ensures { result ≡ flat_map float_bytes (frames_of planes.now 32 6 32) }
{
    let mut line = [0u8; LINE_BYTES];
    for i in 0..SAMPLES {
        let x = planes::sample(planes, FRAMES, i % CHANNELS, i / CHANNELS);
        big_endian::put_f32(&mut line, i * SAMPLE_BYTES, x);
    }
    line
}

// Plays a record to frames. Takes any bytes: what is missing of a record reads as 0.
fn place(bytes: &[u8]) -> Result<[u8; LINE_BYTES], Refusal>
    ensures { Places bytes.now (line_told result) }
{
    let azimuth = big_endian::get_f64(bytes, 0);
    let voice = voice_of(bytes);
    let mut planes = [0.0f32; SAMPLES];
    panner::process(
        Command::Surround(azimuth),
        Layout::Surround51,
        FRAMES,
        FRAMES,
        &voice,
        &mut planes,
    )?;
    Ok(line_of(&planes))
}

// Plays a whole record; whether to go on.
fn play(rt: &HostRuntime, record: &[u8]) -> bool {
    let line = match place(record) {
        Ok(line) => line,
        Err(refusal) => {
            let number = refusal.number();
            let _ = eprintln!(rt; "demo_line: refused {number}");
            return false;
        }
    };
    if rt.write_all(&line).is_err() {
        let _ = eprintln!(rt; "demo_line: standard output cannot be written");
        return false;
    }
    true
}

// Reads until the list is full, the input ends or a read fails, and answers how many bytes came.
fn read_full<R: Read>(input: &mut R, bytes: &mut [u8]) -> usize
    ensures { result ≤ length bytes.new }
{
    let mut at = 0;
    // Kept: a `for` has no count here, since each turn goes on by as many bytes as came. And as in
    // `ears_cases` and `probe`: docs/DECISIONS.md, on `read_full`, has three times eight lines, for want
    // of a promise for one.
    while at < bytes.len() {
        match input.read(&mut bytes[at..]) {
            Ok(n) if n > 0 => at += n,
            _ => return at,
        }
    }
    at
}

// Reads record n, counted from 0, and plays it; whether to go on.
fn play_next(rt: &HostRuntime, n: usize) -> bool {
    let mut record = [0u8; RECORD_BYTES];
    let got = read_full(&mut rt.stdin(), &mut record);
    if got == 0 {
        return false;
    }
    if n == MOST_RECORDS {
        let _ = eprintln!(rt; "demo_line: more than {MOST_RECORDS} records");
        return false;
    }
    if got < RECORD_BYTES {
        let _ = eprintln!(rt; "demo_line: a part record at the end");
        return false;
    }
    play(rt, &record)
}

fn main(rt: HostRuntime) {
    for n in 0..=MOST_RECORDS {
        if !play_next(&rt, n) {
            return;
        }
    }
}
