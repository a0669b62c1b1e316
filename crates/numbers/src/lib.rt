// Converts f32 to f64 and f64 to f32, and takes square roots (document 01, item 1 and 'Conversions and
// roots').
//
// `widen` takes an f32 to the same f64. `narrow` takes an f64 to the nearest f32, a tie to the even one.
// `root` takes an f64 to the f64 nearest its exact root, or refuses it with 10. `inverse_root` takes a count
// to 1.0 over its root, by which the decoder matrix, the binaural rows and the convolver scale. Each promises
// its answer by an equation and, beside it, what document 01 says of it: see specs/Promise.antt.
#![tactic(auto)]

ghost use Rattle.std.specs.Prelude.{◌≡◌, ◌+◌, ◌*◌, ◌^◌, ◌<◌, ◌≤◌, Bool, not, T, if◌then◌else◌, from_bits, to_bits};
ghost use Rattle.std.specs.Float.{binary32, binary64};
ghost use Rattle.std.specs.Float.Ieee.{top, of_fields, nan_bits};
ghost use Rattle.std.specs.Float.Ieee.Nearest.{closest};
ghost use Rattle.formats.specs.Floats.{zero_float};
ghost use Rattle.refusals.specs.Numbers.{told};
ghost use Rattle.numbers.specs.Conversions.{Widens};
ghost use Rattle.numbers.specs.Computed.{narrowed, WholeRoot};
ghost use Rattle.numbers.specs.Computed.{Parted};
ghost use Rattle.numbers.specs.Promise.{NarrowPromise, RootPromise};
ghost use Rattle.numbers.specs.Normalization.{InverseRoot};

use refusals::Refusal;

pub fn widen(x: f32) -> f64
    ensures { Widens x result }
{
    std::num::f32_to_f64_with_nan(x)
}

// m / 2^t to the nearest whole number, a tie to the even one.
fn nearest_shift(m: u64, t: u64) -> u64
    requires shifted { 1 ≤ t }
    requires within_word { t ≤ 63 }
    ensures { result ≡ closest m (2 ^ t) }
{
    let u: u64 = 1 << t;
    let q = m / u;
    let r = m % u * 2;
    if r < u {
        q
    } else if r == u {
        q + q % 2
    } else {
        q + 1
    }
}

// The pattern of the f32 nearest to an f64 that is no NaN, without the sign, which goes with it
// unchanged: e is the field of the f64's exponent and d that of its digits.
fn narrow_magnitude(e: u64, d: u64) -> u32
    requires exponent { e < 2048 }
    requires digits { d < 0x10_0000_0000_0000 }
    requires no_nan { e ≡ 2047 → d ≡ 0 }
    ensures fields { (s : Bool) → to_bits binary32 (narrowed (of_fields binary64 s e d))
        ≡ (if s then top binary32 else 0) + result }
    ensures small { result ≤ 0x7f80_0000 }
{
    if e < 873 {
        // Below half of the smallest f32.
        0
    } else if e < 897 {
        // A subnormal f32, or the smallest normal one.
        nearest_shift(0x10_0000_0000_0000 + d, 926 - e) as u32
    } else {
        // A digit more than the f32 has room for moves into the exponent's field by itself.
        let n = (e - 897) * 0x80_0000 + nearest_shift(0x10_0000_0000_0000 + d, 29);
        if n < 0x7f80_0000 {
            n as u32
        } else {
            0x7f80_0000
        }
    }
}

// The pattern of the f32 nearest to the f64 of the pattern b.
fn narrow_bits(b: u64) -> u32
    requires { T (not (nan_bits binary64 b)) }
    ensures { result ≡ to_bits binary32 (narrowed (from_bits binary64 b)) }
{
    let m = b % 0x8000_0000_0000_0000;
    let n = narrow_magnitude(m / 0x10_0000_0000_0000, b % 0x10_0000_0000_0000);
    if b < 0x8000_0000_0000_0000 {
        n
    } else {
        0x8000_0000 + n
    }
}

pub fn narrow(x: f64) -> f32
    ensures { NarrowPromise x result }
{
    if x.is_nan() {
        0.0 / 0.0
    } else {
        f32::from_bits(narrow_bits(f64::to_bits(x)))
    }
}

// A number digits * 4^half, its digits being 53 or 54 binary ones.
#[derive(Clone, Copy)]
struct Parts {
    pub digits: u64,
    pub half: u64,
}

// The number that the pattern of a positive finite f64 stands for, times 2^2148.
fn parted(bits: u64) -> Parts
    requires positive { 0 < bits }
    requires finite { bits < 2047 * 2 ^ 52 }
    ensures { Parted bits result.digits result.half }
{
    let field = bits >> 52;
    let tail = bits & 0xf_ffff_ffff_ffff;
    let mut digits = tail + 0x10_0000_0000_0000;
    let mut e = field + 1073;
    if field == 0 {
        // A subnormal f64: its digits are moved up until the highest is the 53rd.
        let z = u64::leading_zeros(tail) as u64;
        digits = tail << (z - 11);
        e = 1085 - z;
    }
    Parts {
        digits: digits << (e % 2),
        half: e / 2,
    }
}

// The whole root of m * 2^54, a number of 108 binary digits: two of them a turn, highest first. `root`
// is the root of the digits taken, `rest` what they exceed its square by, and `left` holds those to come.
fn whole_root(m: u64) -> u64
    requires { m < 2 ^ 54 }
    ensures { WholeRoot (m * 2 ^ 54) result }
{
    let mut left = m << 10;
    let mut root: u64 = 0;
    let mut rest: u64 = 0;
    for _ in 0..54u64 {
        let next = rest * 4 + (left >> 62);
        let trial = root * 4 + 1;
        left <<= 2;
        root *= 2;
        rest = next;
        if trial <= next {
            root += 1;
            rest = next - trial;
        }
    }
    root
}

pub fn root(x: f64) -> Result<f64, Refusal>
    ensures { RootPromise x (told zero_float result) }
{
    if x == 0.0 {
        return Ok(x);
    }
    if x > 0.0 {
        let bits = f64::to_bits(x);
        if bits < 0x7ff0_0000_0000_0000 {
            let p = parted(bits);
            // Twice the root, cut to a whole number: half of the next number is the root rounded.
            let r = whole_root(p.digits);
            return Ok(f64::from_bits((p.half - 26) * 0x10_0000_0000_0000 + (r + 1) / 2));
        }
    }
    Err(Refusal::Rootless)
}

// 1.0 over the root of n; 2 for an n of 0.
pub fn inverse_root(n: u32) -> Result<f64, Refusal>
    ensures { InverseRoot n (told zero_float result) }
{
    if n == 0 {
        return Err(Refusal::Count);
    }
    let number = n as f64;
    let root = root(number).unwrap();
    Ok(1.0 / root)
}
