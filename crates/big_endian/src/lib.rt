// Reads and writes numbers in a list of bytes, big-endian, as the bank, the line and the ears have them
// (document 01, 'Filter bank file' and item 10).
//
// `get` and `put` read and write a field of up to eight bytes, and over them stand the readings that files
// use, a signed number in two bytes, an f32 by its bits in four and an f64 in eight. Every function takes any
// input: a field that does not lie inside the list reads as 0, and writing it changes nothing. That reading
// gives what was written, and writing what was read the same bytes, is shown once over the width. `has_room`
// is the one test of whether fields lie inside a list.
#![tactic(auto)]

ghost use Rattle.std.specs.Prelude.{◌≡◌, ◌+◌, ◌*◌, ◌<◌, leb};
ghost use Rattle.big_endian.specs.Fields.{lies, Field, with_field, signed_at, with_signed, float_at, with_float};
ghost use Rattle.big_endian.specs.Fields.{double_at, with_double};

// Whether `count` fields of `width` bytes, from `at` on, lie inside a list of `size` bytes. Neither the product
// nor the sum is formed before it is known to fit.
pub fn has_room(size: usize, at: usize, width: usize, count: usize) -> bool
    ensures { result ≡ leb (at + width * count) size }
{
    if width == 0 {
        return at <= size;
    }
    if size / width < count {
        return false;
    }
    at <= size - width * count
}

// Whether a field of `count` bytes from `at` on is one, of at most eight bytes, and lies inside a list of `size` bytes.
fn lies_inside(size: usize, at: usize, count: usize) -> bool
    ensures { result ≡ lies size at count }
{
    if 8 < count {
        return false;
    }
    has_room(size, at, 1, count)
}

// The number in `count` bytes from `at` on.
pub fn get(s: &[u8], at: usize, count: usize) -> u64
    ensures { Field s.now at count result }
{
    if !lies_inside(s.len(), at, count) {
        return 0;
    }
    let mut n: u64 = 0;
    for b in &s[at..at + count] {
        n = n * 256 + u64::from(*b);
    }
    n
}

// Puts the last `count` digits of n, to the base 256, from `at` on.
pub fn put(out: &mut [u8], at: usize, count: usize, n: u64)
    ensures { out.new ≡ with_field out.old at count n }
{
    if !lies_inside(out.len(), at, count) {
        return;
    }
    let mut rest = n;
    for k in (0..count).rev() {
        out[at + k] = (rest % 256) as u8;
        rest /= 256;
    }
}

// The signed number in two bytes from `at` on.
pub fn get_i16(s: &[u8], at: usize) -> i16
    ensures { result ≡ signed_at s.now at }
{
    let n = get(s, at, 2);
    if n < 32768 {
        return n as i16;
    }
    let k = (65535 - n) as i16;
    -1 - k
}

// Puts a signed number in two bytes from `at` on.
pub fn put_i16(out: &mut [u8], at: usize, z: i16)
    ensures { out.new ≡ with_signed out.old at z }
{
    if z < 0 {
        let k = -1 - z;
        put(out, at, 2, 65535 - (k as u64));
        return;
    }
    put(out, at, 2, z as u64);
}

// Kept: an f32's and an f64's functions are two: a trait of six members over both is longer than they, and no plainer.
// The f32 whose bits stand in four bytes from `at` on. A pattern of a NaN has no f32 of its own in the
// language, so it gives a NaN.
pub fn get_f32(s: &[u8], at: usize) -> f32
    ensures { result ≡ float_at s.now at }
{
    let n = get(s, at, 4);
    if 0x7f80_0000 < n % 0x8000_0000 {
        return 0.0 / 0.0;
    }
    f32::from_bits(n as u32)
}

// Puts the bits of an f32 in four bytes from `at` on, of a NaN always the same ones.
#[tactic(auto, using(crate::proofs::Patterns::nan_written), unfolding(crate::specs::Fields::with_float))]
pub fn put_f32(out: &mut [u8], at: usize, x: f32)
    ensures { out.new ≡ with_float out.old at x }
{
    if x.is_nan() {
        put(out, at, 4, 0x7fc0_0000);
        return;
    }
    put(out, at, 4, u64::from(x.to_bits()));
}

// The f64 whose bits stand in eight bytes from `at` on; a pattern of a NaN gives a NaN.
pub fn get_f64(s: &[u8], at: usize) -> f64
    ensures { result ≡ double_at s.now at }
{
    let n = get(s, at, 8);
    if 0x7ff0_0000_0000_0000 < n % 0x8000_0000_0000_0000 {
        return 0.0 / 0.0;
    }
    f64::from_bits(n)
}

// Puts the bits of an f64 in eight bytes from `at` on, of a NaN always the same ones.
#[tactic(auto, using(crate::proofs::Patterns::nan_written), unfolding(crate::specs::Fields::with_double))]
pub fn put_f64(out: &mut [u8], at: usize, x: f64)
    ensures { out.new ≡ with_double out.old at x }
{
    if x.is_nan() {
        put(out, at, 8, 0x7ff8_0000_0000_0000);
        return;
    }
    put(out, at, 8, x.to_bits());
}
