// Answers the requests of the test program `probe` for the filter bank file, for its conversions and for row choice
// (docs/PROBE.md, operations 6 to 8, 23 and 24).
//
// Test code, and promised by equations all the same: how many bytes are answered, and that they are the
// refusal, the numbers and the lists that `bank` and `bank_choice` promise for what stands in the request, one
// behind the other.
#![tactic(auto)]

ghost use Rattle.std.specs.Prelude.{◌≡◌, ◌≤◌, length};
ghost use Rattle.bank_form.specs.Fault.{found};
ghost use Rattle.bank.specs.Reading as Reading;
ghost use Rattle.bank.specs.Writing.{written_answer};
ghost use Rattle.probe_answer.specs.Answers.{draft};
ghost use Rattle.probe_bank.specs.Answers.{refusal_and_number, then_lists, read_parts, read_into, read_answer};
ghost use Rattle.probe_bank.specs.Answers.{write_parts, write_from, write_into, write_answer, choose_from};
ghost use Rattle.probe_bank.specs.Answers.{choose_answer, turned_by, turn_into, turn_answer, answer_of};

use bank::BankRead;
use bank_form::Fault;
use probe_request::{MOST_AZIMUTHS, MOST_SAMPLES};

mod fillings;

// Room for a file: more than the largest has.
const MOST_BYTES: usize = 33000;

// What stands beside a fault in the place of the rows and L.
const NOTHING: BankRead = BankRead { rows: 0, length: 0 };

// Puts what every answer begins with: a refusal and a number.
fn put_refusal_and_number(refusal: u8, n: usize, out: &mut [u8]) -> usize
    ensures { draft result out.new ≡ refusal_and_number refusal n out.old }
{
    let a = probe_answer::put(refusal as u64, 1, out, 0);
    probe_answer::put(n as u64, 4, out, a)
}

// Puts that of an answer about a file: the refusal and the offset of a fault, 0 and 0 where there is none.
fn put_fault<T: Copy>(answer: Result<T, Fault>, out: &mut [u8]) -> usize
    ensures { draft result out.new ≡ refusal_and_number (found answer).refusal
        (found answer).offset out.old }
{
    match answer {
        Ok(_) => put_refusal_and_number(0, 0, out),
        Err(fault) => put_refusal_and_number(fault.refusal.number(), fault.offset, out),
    }
}

// Puts what the lists hold: how many taps from one on have changed, the azimuths, the elevations, and the taps before
// that one.
fn put_lists(
    azimuths: &[i16],
    elevations: &[i16],
    taps: &[f32],
    shown: usize,
    out: &mut [u8],
    at: usize,
) -> usize
    requires { (shown ≤ length taps.now) × (length taps.now ≤ 8200) }
    ensures { draft result out.new ≡ then_lists (draft at out.old) shown azimuths.now
        elevations.now taps.now }
{
    let a = probe_answer::put(fillings::count_changed(taps, shown), 2, out, at);
    let b = probe_answer::put_list(azimuths, out, a);
    let c = probe_answer::put_list(elevations, out, b);
    probe_answer::put_list(&taps[..shown], out, c)
}

// Puts what reading answered, and what the lists hold after it.
fn put_read(
    answer: Result<BankRead, Fault>,
    azimuths: &[i16],
    elevations: &[i16],
    taps: &[f32],
    shown: usize,
    out: &mut [u8],
) -> usize
    requires { (shown ≤ length taps.now) × (length taps.now ≤ 8200) }
    ensures { draft result out.new
        ≡ read_parts (record {
          answer = Reading.read_answer answer;
          azimuths = azimuths.now;
          elevations = elevations.now;
          taps = taps.now;
        }) shown out.old }
{
    let read = answer.unwrap_or(NOTHING);
    let a = put_fault(answer, out);
    let b = probe_answer::put(read.rows as u64, 4, out, a);
    let c = probe_answer::put(read.length as u64, 4, out, b);
    put_lists(azimuths, elevations, taps, shown, out, c)
}

// Reads the bank that stands in the arguments behind the four lengths into lists that are filled first.
fn read_into(
    args: &[u8],
    azimuths: &mut [i16],
    elevations: &mut [i16],
    taps: &mut [f32],
    out: &mut [u8],
) -> usize
    requires { (6 ≤ length args.now) × (length azimuths.old ≤ 16) × (length elevations.old ≤ 16)
        × (length taps.old ≤ 8200) }
    ensures { draft result out.new ≡ read_into args.now (length azimuths.old)
        (length elevations.old) (length taps.old) out.old }
{
    fillings::fill(azimuths);
    fillings::fill(elevations);
    fillings::fill(taps);
    let answer = bank::read(&args[6..], azimuths, elevations, taps);
    let shown = probe_request::lent(args, 4, 2, taps.len());
    put_read(answer, azimuths, elevations, taps, shown, out)
}

// Lends as much of each list as the arguments say first; so do `write`, `choose` and `turn`.
fn read(args: &[u8], out: &mut [u8]) -> usize
    ensures { draft result out.new ≡ read_answer args.now out.old }
{
    if args.len() < 6 {
        return 0;
    }
    let mut azimuths = [0i16; MOST_AZIMUTHS];
    let mut elevations = [0i16; MOST_AZIMUTHS];
    let mut taps = [0.0f32; MOST_SAMPLES];
    let a = probe_request::lent(args, 0, 1, MOST_AZIMUTHS);
    let e = probe_request::lent(args, 1, 1, MOST_AZIMUTHS);
    let t = probe_request::lent(args, 2, 2, MOST_SAMPLES);
    read_into(
        args,
        &mut azimuths[..a],
        &mut elevations[..e],
        &mut taps[..t],
        out,
    )
}

// Puts what writing or turning a file answered, and the buffer as it stands after it.
fn put_written(answer: Result<usize, Fault>, file: &[u8], out: &mut [u8]) -> usize
    ensures { draft result out.new ≡ write_parts
        (record { answer = written_answer answer; file = file.now }) out.old }
{
    let a = put_fault(answer, out);
    let b = probe_answer::put(answer.unwrap_or(0) as u64, 4, out, a);
    probe_answer::put_bytes(file, out, b)
}

// Writes a bank into a buffer that is filled first.
fn write_from(
    azimuths: &[i16],
    elevations: &[i16],
    l: usize,
    taps: &[f32],
    file: &mut [u8],
    out: &mut [u8],
) -> usize
    requires { length file.old ≤ 33000 }
    ensures { draft result out.new
        ≡ write_from (record {
          azimuths = azimuths.now;
          elevations = elevations.now;
          length = l;
          taps = taps.now;
        }) (length file.old) out.old }
{
    fillings::fill(file);
    let answer = bank::write(azimuths, elevations, l, taps, file);
    put_written(answer, file, out)
}

// The azimuths, the elevations and the taps of the bank stand in the arguments behind the four lengths and L.
fn write_into(
    args: &[u8],
    azimuths: &mut [i16],
    elevations: &mut [i16],
    taps: &mut [f32],
    file: &mut [u8],
    out: &mut [u8],
) -> usize
    requires { (length azimuths.old ≤ 16) × (length elevations.old ≤ 16) × (length taps.old ≤ 8200)
        × (length file.old ≤ 33000) }
    ensures { draft result out.new
        ≡ write_into args.now (length azimuths.old) (length elevations.old)
        (length taps.old) (length file.old) out.old }
{
    let elevations_at = 14 + 2 * azimuths.len();
    let taps_at = elevations_at + 2 * elevations.len();
    if args.len() != taps_at + 4 * taps.len() {
        return 0;
    }
    probe_request::get_list(args, 14, azimuths);
    probe_request::get_list(args, elevations_at, elevations);
    probe_request::get_list(args, taps_at, taps);
    let l = probe_request::number(args, 6, 8);
    write_from(azimuths, elevations, l, taps, file, out)
}

fn write(args: &[u8], out: &mut [u8]) -> usize
    ensures { draft result out.new ≡ write_answer args.now out.old }
{
    let mut azimuths = [0i16; MOST_AZIMUTHS];
    let mut elevations = [0i16; MOST_AZIMUTHS];
    let mut taps = [0.0f32; MOST_SAMPLES];
    let mut file = [0u8; MOST_BYTES];
    let a = probe_request::lent(args, 0, 1, MOST_AZIMUTHS);
    let e = probe_request::lent(args, 1, 1, MOST_AZIMUTHS);
    let t = probe_request::lent(args, 2, 2, MOST_SAMPLES);
    let b = probe_request::lent(args, 4, 2, MOST_BYTES);
    write_into(
        args,
        &mut azimuths[..a],
        &mut elevations[..e],
        &mut taps[..t],
        &mut file[..b],
        out,
    )
}

// Chooses the row of a speaker in the lists that stand in the arguments behind their lengths, the rows and the speaker.
fn choose_from(args: &[u8], azimuths: &mut [i16], elevations: &mut [i16], out: &mut [u8]) -> usize
    requires { (length azimuths.old ≤ 16) × (length elevations.old ≤ 16) }
    ensures { draft result out.new ≡ choose_from args.now (length azimuths.old)
        (length elevations.old) out.old }
{
    let elevations_at = 14 + 2 * azimuths.len();
    if args.len() != elevations_at + 2 * elevations.len() {
        return 0;
    }
    probe_request::get_list(args, 14, azimuths);
    probe_request::get_list(args, elevations_at, elevations);
    let rows = probe_request::number(args, 2, 8);
    let azimuth = big_endian::get_i16(args, 10);
    let elevation = big_endian::get_i16(args, 12);
    let answer = bank_choice::nearest_row(azimuths, elevations, rows, azimuth, elevation);
    put_refusal_and_number(refusals::number_in(answer), answer.unwrap_or(0), out)
}

fn choose(args: &[u8], out: &mut [u8]) -> usize
    ensures { draft result out.new ≡ choose_answer args.now out.old }
{
    let mut azimuths = [0i16; MOST_AZIMUTHS];
    let mut elevations = [0i16; MOST_AZIMUTHS];
    let a = probe_request::lent(args, 0, 1, MOST_AZIMUTHS);
    let e = probe_request::lent(args, 1, 1, MOST_AZIMUTHS);
    choose_from(args, &mut azimuths[..a], &mut elevations[..e], out)
}

// 23 turns a file of version 1 into one of version 2, 24 one of version 2 back.
fn turned(operation: u8, file: &[u8], output: &mut [u8]) -> Result<usize, Fault>
    ensures { record { answer = written_answer result; file = output.new } ≡ turned_by operation
        file.now output.old }
{
    if operation == 23 {
        return bank::to_version_2(file, output);
    }
    bank::to_version_1(file, output)
}

// Turns the file that stands in the arguments behind a length into an output that is filled first.
fn turn_into(operation: u8, args: &[u8], output: &mut [u8], out: &mut [u8]) -> usize
    requires { (2 ≤ length args.now) × (length output.old ≤ 33000) }
    ensures { draft result out.new ≡ turn_into operation args.now (length output.old)
        out.old }
{
    fillings::fill(output);
    let answer = turned(operation, &args[2..], output);
    put_written(answer, output, out)
}

fn turn(operation: u8, args: &[u8], out: &mut [u8]) -> usize
    ensures { draft result out.new ≡ turn_answer operation args.now out.old }
{
    if args.len() < 2 {
        return 0;
    }
    let mut output = [0u8; MOST_BYTES];
    let b = probe_request::lent(args, 0, 2, MOST_BYTES);
    turn_into(operation, args, &mut output[..b], out)
}

// Puts the answer to a request into out: how many bytes, and 0 where the arguments have not the length that the
// operation takes, or where it is none of this family.
pub fn answer(operation: u8, args: &[u8], out: &mut [u8]) -> usize
    ensures { draft result out.new ≡ answer_of operation args.now out.old }
{
    match operation {
        6 => read(args, out),
        7 => write(args, out),
        8 => choose(args, out),
        23 => turn(23, args, out),
        24 => turn(24, args, out),
        _ => 0,
    }
}
