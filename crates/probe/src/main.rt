// The test program: answers requests on standard input, so that every operation can be compared with other
// implementations and replayed in the gate.
//
// It answers one request after the other, until the input ends. docs/PROBE.md has the form of requests and
// answers byte by byte. A request that breaks it is answered as such.
//
// What it puts into an answer is promised by an equation (specs/Answers.antt): the answer of the crate
// `probe_..` that has the operation, which promises every byte. Of what is read and written no contract can
// say anything, so the rest is proved safe and ending, and what it prints is compared.
#![tactic(auto)]

ghost use Rattle.std.specs.Prelude.{◌≡◌, ◌≤◌, length, IfOk};
ghost use Rattle.probe_answer.specs.Answers.{draft};
ghost use Rattle.probe.specs.Answers.{answer_of};

use std::io::Read;

// What is wrong with a request that no operation answers, by the number that is told.
#[derive(Clone, Copy, PartialEq, Eq)]
enum Malformed {
    NoSuchOperation = 1,
    WrongLength = 2,
    TooLong = 3,
    EndsInside = 4,
}

// A request and an answer begin with the operation and the length of what follows, in five bytes.
const HEAD: usize = 5;

// Room for the arguments, and for an answer.
const ROOM: usize = 65536;

// Reads until the input ends or the list is full: how many bytes came. A read that fails counts as the end.
fn read_full<R: Read>(input: &mut R, bytes: &mut [u8]) -> usize
    ensures { result ≤ length bytes.new }
{
    let mut at = 0;
    // Kept: a `for` has no count here, since each turn goes on by as many bytes as came. And as in
    // `demo_line` and `ears_cases`: docs/DECISIONS.md, on `read_full`, has three times eight lines, for want
    // of a promise for one.
    while at < bytes.len() {
        match input.read(&mut bytes[at..]) {
            Ok(n) if n > 0 => at += n,
            _ => return at,
        }
    }
    at
}

// Writes the answer whose `count` bytes stand in out after the head; whether that went.
fn write_answer(rt: &HostRuntime, operation: u8, count: usize, out: &mut [u8; ROOM]) -> bool {
    if ROOM - HEAD < count {
        return false;
    }
    out[0] = operation;
    big_endian::put(out, 1, 4, count as u64);
    rt.write_all(&out[..HEAD + count]).is_ok()
}

fn write_malformed(rt: &HostRuntime, what: Malformed, out: &mut [u8; ROOM]) -> bool {
    out[HEAD] = what as u8;
    write_answer(rt, 0, 1, out)
}

// Puts the answer to a request into out, by the family that has the operation: how many bytes, 0 where the
// arguments have not the length that it takes, or where there is no such operation.
fn put_answer(operation: u8, args: &[u8], out: &mut [u8]) -> usize
    ensures { draft result out.new ≡ answer_of operation args.now out.old }
{
    match operation {
        1..=5 => probe_numbers::answer(operation, args, out),
        6..=8 => probe_bank::answer(operation, args, out),
        9..=13 => probe_gains::answer(operation, args, out),
        14 | 16 => probe_planes::answer(operation, args, out),
        15 => probe_gains::answer(operation, args, out),
        17 | 18 => probe_hrtf::answer(operation, args, out),
        19 | 20 => probe_setup::answer(operation, args, out),
        21 => probe_script::answer(operation, args, out),
        22 => probe_replay::answer(operation, args, out),
        23 | 24 => probe_bank::answer(operation, args, out),
        25 => probe_hrtf::answer(operation, args, out),
        _ => 0,
    }
}

// Whether there is such an operation.
fn is_operation(operation: u8) -> bool {
    matches!(operation, 1..=25)
}

// Puts the answer to a request whose arguments are all there behind the head: how many bytes.
fn answer(operation: u8, args: &[u8], out: &mut [u8; ROOM]) -> Result<usize, Malformed> {
    if !is_operation(operation) {
        return Err(Malformed::NoSuchOperation);
    }
    match put_answer(operation, args, &mut out[HEAD..]) {
        0 => Err(Malformed::WrongLength),
        count => Ok(count),
    }
}

// Reads past one part of arguments that are longer than any operation takes: how many are left, or the
// same number where the input has ended.
fn skip_some<R: Read>(input: &mut R, left: usize, args: &mut [u8]) -> usize
    ensures { result ≤ left }
{
    if left < args.len() {
        return left - read_full(input, &mut args[..left]);
    }
    left - read_full(input, args)
}

// Reads past such arguments.
fn skip<R: Read>(input: &mut R, length: usize, args: &mut [u8]) -> Result<(), Malformed> {
    let mut left = length;
    // Kept: a `for` has no count here either.
    while 0 < left {
        let rest = skip_some(input, left, args);
        if rest == left {
            return Err(Malformed::EndsInside);
        }
        left = rest;
    }
    Ok(())
}

// Reads `count` bytes of arguments.
fn read_args<R: Read>(input: &mut R, count: usize, args: &mut [u8]) -> Result<(), Malformed>
    ensures { IfOk result (λ _. count ≤ length args.old) }
{
    if args.len() < count {
        skip(input, count, args)?;
        return Err(Malformed::TooLong);
    }
    if read_full(input, &mut args[..count]) < count {
        return Err(Malformed::EndsInside);
    }
    Ok(())
}

// Reads the arguments behind a head, and puts the answer: how many bytes.
fn respond<R: Read>(
    input: &mut R,
    head: &[u8; HEAD],
    args: &mut [u8; ROOM],
    out: &mut [u8; ROOM],
) -> Result<usize, Malformed> {
    let length = big_endian::get(head, 1, 4) as usize;
    read_args(input, length, args)?;
    answer(head[0], &args[..length], out)
}

// Reads one request and answers it; whether to go on.
fn one(rt: &HostRuntime, args: &mut [u8; ROOM], out: &mut [u8; ROOM]) -> bool {
    let mut head = [0u8; HEAD];
    let got = read_full(&mut rt.stdin(), &mut head);
    if got == 0 {
        return false;
    }
    if got < HEAD {
        write_malformed(rt, Malformed::EndsInside, out);
        return false;
    }
    match respond(&mut rt.stdin(), &head, args, out) {
        Ok(count) => write_answer(rt, head[0], count, out),
        Err(what) => write_malformed(rt, what, out) && what != Malformed::EndsInside,
    }
}

fn main(rt: HostRuntime) {
    let mut args = [0u8; ROOM];
    let mut out = [0u8; ROOM];
    // A proved loop has to end, and nothing says that the input does. So the turns are counted up to
    // a number that no run uses up.
    for _ in 0..u64::MAX {
        if !one(&rt, &mut args, &mut out) {
            return;
        }
    }
}
