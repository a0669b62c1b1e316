// Tests the program `ears` in the gate: plays every case of document 01's item 10, every refusal of a bank
// that document 02, E2 and E6, names, and a hum at every 15 degrees, and prints what was told and what the output
// holds then.
//
// The cases are played by file names. The banks and the lines are in data/, written by tests/ears-cases from
// a model of its own; what is printed is compared with the file `stdout`. `ears_file` plays. The program
// promises nothing of its own beyond being safe and ending.
#![tactic(auto)]

ghost use Rattle.std.specs.Prelude.{◌≤◌, length};

use std::fs::File;
use std::io::{Read, Write};

// No run of the tests reads more at once.
const NO_LIMIT: usize = 65536;

fn say(rt: &HostRuntime, text: &[u8]) {
    let _ = rt.write_all(text);
}

// The bytes of a list in hexadecimal, a frame of eight to a line.
fn say_bytes(rt: &HostRuntime, bytes: &[u8]) {
    for (i, byte) in bytes.iter().enumerate() {
        let _ = print!(rt; "{byte:02x}");
        if i % 8 == 7 {
            say(rt, b"\n");
        }
    }
    if bytes.len() % 8 != 0 {
        say(rt, b"\n");
    }
}

// Reads until the file ends or the list is full: how many bytes came. A read that fails counts as the end.
fn read_full<R: Read>(input: &mut R, bytes: &mut [u8]) -> usize
    ensures { result ≤ length bytes.new }
{
    let mut at = 0;
    // Kept: a `for` has no count here, since each turn goes on by as many bytes as came. And as in
    // `demo_line` and `probe`: docs/DECISIONS.md, on `read_full`, has three times eight lines, for want
    // of a promise for one.
    while at < bytes.len() {
        match input.read(&mut bytes[at..]) {
            Ok(n) if n > 0 => at += n,
            _ => return at,
        }
    }
    at
}

// What the output holds, as far as it has 4,096 bytes.
fn say_file(rt: &HostRuntime, path: &[u8]) {
    let Ok(mut file) = files::open_read(rt, path) else {
        say(rt, b"no file\n");
        return;
    };
    let mut space = [0u8; 4096];
    let n = read_full(&mut file, &mut space);
    let _ = print!(rt; "{n}");
    say(rt, b" bytes\n");
    say_bytes(rt, &space[..n]);
}

// Leaves something in the output, as an earlier run would.
fn leave_something(rt: &HostRuntime, path: &[u8]) {
    if let Ok(mut file) = files::open_overwrite(rt, path) {
        let _ = file.write_all(b"an earlier run");
    }
}

// Plays a line that is open, and says the line that is told.
fn play_line(rt: &HostRuntime, bank: &[u8], line: &mut File, out: &[u8], limit: usize) {
    let mut text = [0u8; 64];
    let n = ears_file::result_line(ears_file::run(rt, bank, line, out, limit), &mut text);
    say(rt, &text[..n]);
}

// Where the line cannot be opened the output is emptied all the same.
fn play(rt: &HostRuntime, bank: &[u8], line: &[u8], limit: usize) {
    let out = b"ears.raw";
    leave_something(rt, out);
    match files::open_read(rt, line) {
        Ok(mut from) => play_line(rt, bank, &mut from, out, limit),
        Err(e) => {
            files::fail(rt, line, e);
            let _ = files::open_overwrite(rt, out);
        }
    }
}

fn case(rt: &HostRuntime, title: &[u8], bank: &[u8], line: &[u8], limit: usize) {
    say(rt, title);
    say(rt, b"\n");
    play(rt, bank, line, limit);
    say_file(rt, b"ears.raw");
}

// Lines of document 01.
fn worked(rt: &HostRuntime) {
    case(
        rt,
        b"three frames, L = 2, the first NaN throughout",
        b"good.bank",
        b"nan_first.line",
        NO_LIMIT,
    );
    case(rt, b"empty input", b"good.bank", b"empty.line", NO_LIMIT);
    case(
        rt,
        b"a part frame behind three whole ones",
        b"good.bank",
        b"part.line",
        NO_LIMIT,
    );
    case(
        rt,
        b"a part frame alone",
        b"good.bank",
        b"part_alone.line",
        NO_LIMIT,
    );
}

// The same line through one bank or another.
fn bank_case(rt: &HostRuntime, title: &[u8], bank: &[u8]) {
    case(rt, title, bank, b"nan_first.line", NO_LIMIT);
}

// What is no bank at all, and the largest one of each version.
fn banks(rt: &HostRuntime) {
    bank_case(rt, b"no bank", b"missing.bank");
    bank_case(rt, b"an empty bank", b"empty.line");
    bank_case(rt, b"a folder for a bank", b"folder");
    bank_case(rt, b"a WAV file for a bank", b"riff.wav");
    bank_case(rt, b"the largest bank of version 1", b"largest_1.bank");
    bank_case(rt, b"the largest bank", b"largest.bank");
    bank_case(rt, b"the largest bank with a byte more", b"too_long.bank");
}

// Versions: both are played, and the ears of one that is level are those of version 1.
fn versions(rt: &HostRuntime) {
    bank_case(
        rt,
        b"a bank of version 2, all of it level",
        b"version_2.bank",
    );
    bank_case(
        rt,
        b"a bank of version 2 with rows above and below",
        b"raised.bank",
    );
    bank_case(
        rt,
        b"a bank of version 2 without a level row",
        b"no_level.bank",
    );
    bank_case(rt, b"a bank of version 3", b"version_3.bank");
    bank_case(rt, b"a bank of version 1 that says 2", b"said_2.bank");
    bank_case(rt, b"a bank of version 2 that says 1", b"said_1.bank");
}

// A fault in each field of the head behind the version, in byte order.
fn bad_heads(rt: &HostRuntime) {
    bank_case(
        rt,
        b"a bank that ends inside its length",
        b"three_bytes.bank",
    );
    bank_case(rt, b"a bank without its last byte", b"short.bank");
    bank_case(rt, b"a bank with a byte more", b"long.bank");
    bank_case(rt, b"a bank of no rows", b"no_rows.bank");
    bank_case(rt, b"a bank of nine rows", b"nine_rows.bank");
    bank_case(rt, b"a bank without taps", b"no_taps.bank");
}

// A fault in a field of a row, or behind the last row.
fn bad_rows(rt: &HostRuntime) {
    bank_case(rt, b"a bank with an azimuth of -1800", b"outside.bank");
    bank_case(rt, b"a bank with an azimuth twice", b"twice.bank");
    bank_case(rt, b"a bank with an elevation of 901", b"above.bank");
    bank_case(rt, b"a bank with an elevation of -901", b"below.bank");
    bank_case(
        rt,
        b"a bank with azimuth and elevation twice",
        b"pair_twice.bank",
    );
    bank_case(
        rt,
        b"a bank with a tap that is not finite",
        b"infinite.bank",
    );
    bank_case(
        rt,
        b"a bank without its last byte, its length put right",
        b"inside_a_tap.bank",
    );
    bank_case(
        rt,
        b"a bank with a byte more, its length put right",
        b"left_over.bank",
    );
}

// A line through filters that are longer than it, and through others at once.
fn uncut(rt: &HostRuntime) {
    case(
        rt,
        b"ramps through the largest bank",
        b"largest.bank",
        b"ramps.line",
        NO_LIMIT,
    );
    case(
        rt,
        b"ramps, read at once",
        b"good.bank",
        b"ramps.line",
        NO_LIMIT,
    );
}

// The same line however it is cut.
fn cuts(rt: &HostRuntime) {
    case(
        rt,
        b"ramps, a byte at a time",
        b"good.bank",
        b"ramps.line",
        1,
    );
    case(
        rt,
        b"ramps, 7 bytes at a time",
        b"good.bank",
        b"ramps.line",
        7,
    );
    case(
        rt,
        b"ramps, 24 bytes at a time",
        b"good.bank",
        b"ramps.line",
        24,
    );
    case(
        rt,
        b"ramps, 25 bytes at a time",
        b"good.bank",
        b"ramps.line",
        25,
    );
}

// Reads the file of a name, as far as the list has room: none of it, where it cannot be read.
fn read_named(rt: &HostRuntime, path: &[u8], bytes: &mut [u8]) -> usize
    ensures { result ≤ length bytes.new }
{
    match files::open_read(rt, path) {
        Ok(mut file) => read_full(&mut file, bytes),
        Err(_) => 0,
    }
}

// Compares two files, as far as both have 65,536 bytes.
fn compare(rt: &HostRuntime, a: &[u8], b: &[u8]) {
    let mut one = [0u8; 65536];
    let mut two = [0u8; 65536];
    let n = read_named(rt, a, &mut one);
    let m = read_named(rt, b, &mut two);
    let _ = print!(rt; "{n}");
    if one[..n] == two[..m] {
        say(rt, b" bytes, the same\n");
        return;
    }
    say(rt, b" bytes, not the same\n");
}

fn write_often(to: &mut File, part: &[u8]) {
    for _ in 0..200 {
        let _ = to.write_all(part);
    }
}

// Writes a file that no buffer holds: what a small one holds, two hundred times.
fn write_long(rt: &HostRuntime, small: &[u8], long: &[u8]) {
    let mut part = [0u8; 4096];
    let n = read_named(rt, small, &mut part);
    if let Ok(mut to) = files::open_overwrite(rt, long) {
        write_often(&mut to, &part[..n]);
    }
}

// A bank of 40,000 bytes, more than any bank has: what is told is that of the whole file, not of a part that was kept.
fn long_bank_case(rt: &HostRuntime, title: &[u8], part: &[u8]) {
    write_long(rt, part, b"forty_thousand.bank");
    bank_case(rt, title, b"forty_thousand.bank");
}

fn long_banks(rt: &HostRuntime) {
    long_bank_case(
        rt,
        b"40000 bytes: nine rows, the length right",
        b"nine_rows.part",
    );
    long_bank_case(
        rt,
        b"40000 bytes: one row, the length right",
        b"one_row.part",
    );
    long_bank_case(
        rt,
        b"40000 bytes: nine rows, the length that of 32810",
        b"as_32810.part",
    );
    long_bank_case(
        rt,
        b"40000 bytes: nine rows, the length that of 32809",
        b"as_32809.part",
    );
    long_bank_case(
        rt,
        b"40000 bytes: an azimuth twice, the length right",
        b"twice.part",
    );
    long_bank_case(
        rt,
        b"40000 bytes: a pair twice, the length right",
        b"pair_twice.part",
    );
}

// The long line at once and in parts, and its ears against those that are expected.
fn long_cuts(rt: &HostRuntime) {
    write_long(rt, b"ramps.line", b"long.line");
    say(rt, b"two hundred ramps, read at once\n");
    play(rt, b"good.bank", b"long.line", NO_LIMIT);
    compare(rt, b"ears.raw", b"long.expected");
    say(rt, b"two hundred ramps, 4096 bytes at a time\n");
    play(rt, b"good.bank", b"long.line", 4096);
    compare(rt, b"ears.raw", b"long.expected");
    say(rt, b"two hundred ramps, 25 bytes at a time\n");
    play(rt, b"good.bank", b"long.line", 25);
    compare(rt, b"ears.raw", b"long.expected");
}

// The line that `demo_line` writes in the gate, through the demo's bank: tests/bearings measures these ears.
fn bearings(rt: &HostRuntime) {
    say(rt, b"the hum at every 15 degrees\n");
    play(rt, b"demo.bank", b"bearings.line", NO_LIMIT);
    compare(rt, b"ears.raw", b"bearings.expected");
}

fn main(rt: HostRuntime) {
    worked(&rt);
    banks(&rt);
    versions(&rt);
    bad_heads(&rt);
    bad_rows(&rt);
    long_banks(&rt);
    uncut(&rt);
    cuts(&rt);
    long_cuts(&rt);
    bearings(&rt);
}
