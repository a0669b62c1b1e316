// Computes the sine and the cosine of an angle in degrees, from which the gains of every position and
// direction are made (document 01, item 1 and 'Angles').
//
// `sine` and `cosine` take any f64. One that is no number from -1080 to 1080 is refused with 3 and 0.0. At
// every other the promise (specs/Promise.antt) fixes each bit of the value, and says beside it that the
// value is within 2^-40 of the defined one (crate `series`), and that at a multiple of 90 it is exactly
// +0.0, 1.0 or -1.0. `is_inside` is the one test of an angle's range, which `harmonics` refuses by too.
//
// The program works in whole numbers: the angle in units of 2^-52 degree, all else in units of 2^-60, and
// only the first and the last step, which are exact, in floats. No branch is made for the multiples of 90:
// there the last rounding gives the exact values by itself. proofs/Near.antt shows 2^-50, by this budget in
// units of 2^-60, of which 2^-50 is 1024:
//
//   step                                                               sine   cosine
//   x, the angle in radians, two cuts                                     2        2
//   x squared                                                            17       17
//   each inner nesting 1 - x² / ((j + 1) (j + 2)) (..)                   15       15
//   the outermost nesting                                                29       85
//   times x                                                             119        -
//   the sum so far                                                      119       85
//   rounded to a multiple of 2^-51                                      256      256
//   the angle cut to a unit: 2^-54, and 2^-53 for crossing 180          192      192
//   the sum in place of the exact value, at a multiple of 90: 2^-54      64       64
//   together                                                            631      597
#![tactic(auto)]

ghost use Rattle.std.specs.Prelude.{◌≡◌, ◌-◌, ◌*◌, ◌^◌, ◌<◌, ◌≤◌, T, MatchResult, true, false};
ghost use Rattle.formats.specs.Floats.{zero_float};
ghost use Rattle.refusals.specs.Numbers.{told, number_of};
ghost use Rattle.angles.specs.Computed as Computed;
ghost use Rattle.angles.specs.Limits as Limits;
ghost use Rattle.angles.specs.Limits.{is_inside};
ghost use Rattle.angles.specs.Promise as Said;
ghost use Rattle.series.specs.Sums as Sums;

use refusals::Refusal;

// 1 in units of 2^-60.
const ONE: u64 = 0x1000_0000_0000_0000;

// A turn in units of 2^-52 degree, and half of one.
const TURN: u64 = 1621295865853378560;

const HALF: u64 = 810647932926689280;

// A degree in radians, by document 01's digits of pi, in units of 2^-68, cut.
const DEGREE: u64 = 5151302725743731798;

// a * b / 2^60, cut: the four products of halves, added column by column.
fn times(a: u64, b: u64) -> u64
    requires { a * b < 2 ^ 124 }
    ensures { result ≡ Computed.times a b }
{
    let a1 = a / 0x1_0000_0000;
    let a0 = a % 0x1_0000_0000;
    let b1 = b / 0x1_0000_0000;
    let b0 = b % 0x1_0000_0000;
    let low = a0 * b0;
    let middle = a1 * b0 + low / 0x1_0000_0000;
    let second = a0 * b1 + middle % 0x1_0000_0000;
    let high = a1 * b1 + middle / 0x1_0000_0000 + second / 0x1_0000_0000;
    high * 16 + second % 0x1_0000_0000 / 0x1000_0000
}

// One nesting: y * f / ((j + 1) (j + 2)).
fn nesting(y: u64, f: u64, j: u64) -> u64
    requires { (y ≤ 12 * 2 ^ 60) × (f ≤ 2 ^ 60) × (j ≤ 26) }
    ensures { result ≡ Computed.nesting y f j }
{
    times(y, f) / ((j + 1) * (j + 2))
}

// The outermost nesting at x radians, of the sine (top 25) or the cosine (top 26): 1 less it is the sum's bracket.
fn outermost(x: u64, top: u64) -> u64
    requires { (x * x ≤ 12 * 2 ^ 120) × (top ≤ 26) }
    ensures { result ≡ Computed.outermost x top }
{
    let y = times(x, x);
    let last = top % 2;
    let mut f = ONE;
    for n in (0..top / 2).rev() {
        f = ONE - nesting(y, f, last + 2 + 2 * n);
    }
    nesting(y, f, last)
}

// Whether an angle is from -limit to limit.
pub fn is_inside(limit: f64, angle: f64) -> bool
    ensures { result ≡ is_inside limit angle }
{
    angle >= -limit && angle <= limit
}

// An angle of 0 to 1080 degrees in units of 2^-52 degree, cut.
fn units(d: f64) -> u64
    requires { T (Computed.is_upright d) }
    ensures { result ≡ Computed.units d }
{
    std::num::truncating_f64_to_u64(d * 4503599627370496.0)
}

// An angle from -1080 to 1080 degrees turned into 0 up to a turn, in the same units.
fn turned(d: f64) -> u64
    requires { T (is_inside Limits.limit d) }
    ensures { result ≡ Computed.place d }
{
    if d < 0.0 {
        (TURN - units(-d) % TURN) % TURN
    } else {
        units(d) % TURN
    }
}

// The radians of a place on the turn, by the shorter way from 0, in units of 2^-60.
fn radians(a: u64) -> u64
    requires { a < Computed.turn }
    ensures { result ≡ Computed.radian_units (Computed.short a) }
{
    if a <= HALF {
        times(a, DEGREE)
    } else {
        times(TURN - a, DEGREE)
    }
}

// How far g is from 1, either way.
fn from_one(g: u64) -> u64
    ensures { result ≡ Computed.from_one g }
{
    if g <= ONE { ONE - g } else { g - ONE }
}

// A size in units of 2^-60 as a float, rounded to units of 2^-51. 0 has no sign.
fn rounded(negative: bool, size: u64) -> f64
    requires { size < 2 ^ 62 - 256 }
    ensures { result ≡ Computed.rounded_units negative size }
{
    let n = (size + 256) / 512;
    let v = n as f64 / 2251799813685248.0;
    if negative {
        if n == 0 { v } else { -v }
    } else {
        v
    }
}

// The sine at a place on the turn: x times the bracket, with the other sign beyond half a turn.
fn sine_at(a: u64) -> f64
    requires { a < Computed.turn }
    ensures { result ≡ Computed.sine_at a }
{
    let x = radians(a);
    let g = outermost(x, 25);
    rounded((a > HALF) != (g > ONE), times(x, from_one(g)))
}

// The cosine at a place on the turn: the bracket.
fn cosine_at(a: u64) -> f64
    requires { a < Computed.turn }
    ensures { result ≡ Computed.cosine_at a }
{
    let x = radians(a);
    let g = outermost(x, 26);
    rounded(g > ONE, from_one(g))
}

// The place of d degrees on the turn. No NaN is from -1080 to 1080, and no infinity.
fn place_of(d: f64) -> Result<u64, Refusal>
    ensures { MatchResult result (λ a. (is_inside Limits.limit d ≡ true) × (a ≡ Computed.place d))
        (λ r. (is_inside Limits.limit d ≡ false) × (number_of r ≡ 3)) }
{
    if !is_inside(1080.0, d) {
        return Err(Refusal::Angle);
    }
    Ok(turned(d))
}

// The sine of d degrees.
pub fn sine(d: f64) -> Result<f64, Refusal>
    ensures { Said.WavePromise Sums.sine d (told zero_float result) }
{
    Ok(sine_at(place_of(d)?))
}

// The cosine of d degrees.
pub fn cosine(d: f64) -> Result<f64, Refusal>
    ensures { Said.WavePromise Sums.cosine d (told zero_float result) }
{
    Ok(cosine_at(place_of(d)?))
}
