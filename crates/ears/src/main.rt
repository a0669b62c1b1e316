// The program: plays a 5.1 line through a filter bank to two ears, and prints one line (document 01, item
// 10).
//
// It reads `bank.bin` and 5.1 frames on standard input, and writes `ears.raw`. With three arguments it takes
// the names of the bank, of the line and of the output instead. `ears_file` does the work. The program
// promises nothing of its own beyond being safe and ending.
#![tactic(auto)]

ghost use Rattle.std.specs.Prelude.{◌≤◌, length, IfSome};

use ears_file::{RunCounts, RunError};
use std::env::FillError;
use std::rt::Env;

// As many bytes as the buffer has room for are read at a time.
const NO_LIMIT: usize = usize::MAX;

// Prints the line of a run; one that failed has none.
fn tell(rt: &HostRuntime, run: Result<RunCounts, RunError>) {
    let mut text = [0u8; 64];
    let n = ears_file::result_line(run, &mut text);
    if let Err(e) = rt.write_all(&text[..n]) {
        files::fail(rt, b"standard output", e);
    }
}

// Plays by the names that the arguments give. Where the line cannot be opened the output is emptied all the same.
fn play_named(rt: &HostRuntime, bank: &[u8], line: &[u8], out: &[u8]) {
    match files::open_read(rt, line) {
        Ok(mut from) => tell(rt, ears_file::run(rt, bank, &mut from, out, NO_LIMIT)),
        Err(e) => {
            files::fail(rt, line, e);
            let _ = files::open_overwrite(rt, out);
        }
    }
}

// Puts an argument at the start of a buffer, and answers how many bytes it has, if it is there. One that has no room
// has none: no file has so long a name.
fn argument(rt: &HostRuntime, i: usize, buf: &mut [u8]) -> Option<usize>
    ensures { IfSome result (λ n. n ≤ length buf.new) }
{
    match rt.arg(i, buf) {
        Ok(n) => Some(n),
        Err(FillError::TooLong) => Some(0),
        Err(FillError::NotPresent) => None,
    }
}

fn main(rt: HostRuntime) {
    let mut bank = [0u8; 4096];
    let mut line = [0u8; 4096];
    let mut out = [0u8; 4096];
    let mut beyond = [0u8; 1];
    let n = argument(&rt, 1, &mut bank);
    let m = argument(&rt, 2, &mut line);
    let k = argument(&rt, 3, &mut out);
    let more = argument(&rt, 4, &mut beyond);
    match (n, m, k, more) {
        (None, _, _, _) => {
            let mut input = rt.stdin();
            tell(
                &rt,
                ears_file::run(&rt, b"bank.bin", &mut input, b"ears.raw", NO_LIMIT),
            );
        }
        (Some(n), Some(m), Some(k), None) => play_named(&rt, &bank[..n], &line[..m], &out[..k]),
        _ => {
            let _ = eprintln!(rt; "usage: ears [BANK LINE OUT]");
        }
    }
}
