// The one line that is printed. It is put at the start of a list of 64 bytes or more, which has room for the
// longest; a shorter list stays as it was, and the answer is 0.
ghost use Rattle.std.specs.Prelude.{◌≡◌, ◌+◌, ◌≤◌, ◌++◌, length};
ghost use Rattle.ears_wire.specs.Line.{decimal_digits, newline, frames_line, refused_line, refused_at_line};
ghost use Rattle.ears_wire.specs.Promise.{Put, Lined};

// How long a list has to be.
const ROOM: usize = 64;

// Puts a part from `at` on, and answers where it ends.
fn put_part(out: &mut [u8], at: usize, part: &[u8]) -> usize
    requires { at + length part.now ≤ length out.old }
    ensures { Put out.old at part.now result out.new }
{
    let end = at + part.len();
    out[at..end].copy_from_slice(part);
    end
}

// Puts the digits of a number from `at` on, and answers where they end.
fn put_number(out: &mut [u8], at: usize, n: u64) -> usize
    requires { at + 20 ≤ length out.old }
    ensures digits { Put out.old at (decimal_digits n) result out.new }
    ensures room { result ≤ at + 20 }
{
    let mut digits = [0u8; 20];
    let k = io::decimal(n, &mut digits);
    put_part(out, at, &digits[..k])
}

// Puts a word and the number behind it from `at` on, and answers where they end.
fn put_named(out: &mut [u8], at: usize, word: &[u8], n: u64) -> usize
    requires { at + length word.now + 20 ≤ length out.old }
    ensures both { Put out.old at (word.now ++ decimal_digits n) result out.new }
    ensures room { result ≤ at + length word.now + 20 }
{
    let a = put_part(out, at, word);
    put_number(out, a, n)
}

// Puts a line of two numbers, each behind its word. The words have 23 bytes at most, so that 64 have room.
fn put_two(out: &mut [u8], first: &[u8], m: u64, second: &[u8], n: u64) -> usize
    requires room { 64 ≤ length out.old }
    requires short { length first.now + length second.now ≤ 23 }
    ensures { Put out.old 0
        (first.now ++ (decimal_digits m ++ (second.now ++ (decimal_digits n ++ newline)))) result
        out.new }
{
    let a = put_named(out, 0, first, m);
    let b = put_named(out, a, second, n);
    put_part(out, b, b"\n")
}

fn put_refused(refusal: u8, out: &mut [u8]) -> usize
    requires { 64 ≤ length out.old }
    ensures { Put out.old 0 (refused_line refusal) result out.new }
{
    let a = put_named(out, 0, b"refused ", refusal as u64);
    put_part(out, a, b"\n")
}

// The line of a run: how many frames were played, and how many of them are unsettled. Answers its length.
pub fn frames_line(frames: u64, unsettled: u64, out: &mut [u8]) -> usize
    ensures { Lined out.old (frames_line frames unsettled) result out.new }
{
    if out.len() < ROOM {
        return 0;
    }
    put_two(out, b"frames ", frames, b" unsettled ", unsettled)
}

// The line of a refusal. Answers its length.
pub fn refused_line(refusal: u8, out: &mut [u8]) -> usize
    ensures { Lined out.old (refused_line refusal) result out.new }
{
    if out.len() < ROOM {
        return 0;
    }
    put_refused(refusal, out)
}

// The line of a refusal with a place. Answers its length.
pub fn refused_at_line(refusal: u8, place: u64, out: &mut [u8]) -> usize
    ensures { Lined out.old (refused_at_line refusal place) result out.new }
{
    if out.len() < ROOM {
        return 0;
    }
    put_two(out, b"refused ", refusal as u64, b" at ", place)
}
