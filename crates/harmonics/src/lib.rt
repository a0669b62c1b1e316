// Turns a direction into its ambisonic coefficients, sixteen at most, in ACN order and SN3D, for orders 1 to
// 3 (document 01, item 3 and 'Gains').
//
// It ports compute_sh_coefficients of 001 and 003 and calculate_ambisonic_gains of 000, said once.
//
// `compute_sh_coefficients` takes any order and any direction. An order that is not 1, 2 or 3 is refused with
// 1, a direction that is NaN, infinite or outside -180..180 and -90..90 with 3, and sixteen times 0.0. Else
// the promise (specs/Promise.antt) fixes each bit of the sixteen, and says beside it that each is within
// 2^-34 of document 01's formula over the defined sines and cosines; beyond the order stands 0.0. The tests of
// an azimuth and of a direction are public, for `surround` and `cues` to refuse by.
//
// proofs/Near.antt shows 2^-42, by this budget in units of 2^-50, of which 2^-42 is 256:
//
//   step                                                    units
//   sine and cosine of the azimuth and of the elevation         1
//   sine and cosine of 2.0 times one of them                   64
//   sine and cosine of 3.0 times the azimuth                  128
//   channels 0, 1, 2, 3, 6                                      4
//   channel 12                                                 12
//   channels 11, 13                                            17
//   channels 4, 5, 7, 8                                        58
//   channels 9, 15                                            105
//   channels 10, 14                                           131
#![tactic(auto)]

ghost use Rattle.std.specs.Prelude.{◌≡◌};
ghost use Rattle.harmonics.specs.Computed as Computed;
ghost use Rattle.harmonics.specs.Promise as Said;

use refusals::Refusal;

// Where a sound comes from, in degrees: azimuth 0 is the front and 90 the left, elevation 90 is above.
#[derive(Clone, Copy)]
pub struct Direction {
    pub azimuth: f64,
    pub elevation: f64,
}

// The sines and cosines that the coefficients are made of.
#[derive(Clone, Copy)]
struct Waves {
    cos_el: f64,
    sin_el: f64,
    sin_2el: f64,
    cos_az: f64,
    sin_az: f64,
    cos_2az: f64,
    sin_2az: f64,
    cos_3az: f64,
    sin_3az: f64,
}

// Whether an azimuth is NaN, infinite or outside -180..180.
pub fn refuses_azimuth(azimuth: f64) -> bool
    ensures { result ≡ Said.refuses_azimuth azimuth }
{
    !angles::is_inside(180.0, azimuth)
}

// Whether an elevation is NaN, infinite or outside -90..90.
fn refuses_elevation(elevation: f64) -> bool
    ensures { result ≡ Said.refuses_elevation elevation }
{
    !angles::is_inside(90.0, elevation)
}

// Whether one of the two is refused.
pub fn refuses_direction(direction: Direction) -> bool
    ensures { result ≡ Said.refuses_direction direction }
{
    refuses_azimuth(direction.azimuth) || refuses_elevation(direction.elevation)
}

fn sin(angle: f64) -> f64
    ensures { result ≡ Computed.sin angle }
{
    angles::sine(angle).unwrap_or(0.0)
}

fn cos(angle: f64) -> f64
    ensures { result ≡ Computed.cos angle }
{
    angles::cosine(angle).unwrap_or(0.0)
}

fn waves_of(direction: Direction) -> Waves
    ensures { result ≡ Computed.waves_of direction }
{
    let az = direction.azimuth;
    let el = direction.elevation;
    Waves {
        cos_el: cos(el),
        sin_el: sin(el),
        sin_2el: sin(2.0 * el),
        cos_az: cos(az),
        sin_az: sin(az),
        cos_2az: cos(2.0 * az),
        sin_2az: sin(2.0 * az),
        cos_3az: cos(3.0 * az),
        sin_3az: sin(3.0 * az),
    }
}

// Order 0: W, and order 1: Y, Z, X (ACN 1, 2, 3).
fn first_order(w: Waves) -> [f64; 16]
    ensures { result ≡ Computed.up_to 1 w }
{
    let mut gains = [0.0; 16];
    gains[0] = 1.0; // W
    gains[1] = w.cos_el * w.sin_az; // Y
    gains[2] = w.sin_el; // Z
    gains[3] = w.cos_el * w.cos_az; // X
    gains
}

// And order 2: ACN 4-8.
fn second_order(w: Waves) -> [f64; 16]
    ensures { result ≡ Computed.up_to 2 w }
{
    let mut gains = first_order(w);
    let cos_el_sq = w.cos_el * w.cos_el;
    gains[4] = 0.8660254037844386 * cos_el_sq * w.sin_2az; // V
    gains[5] = 0.8660254037844386 * w.sin_2el * w.sin_az; // T
    gains[6] = 0.5 * (3.0 * w.sin_el * w.sin_el - 1.0); // R
    gains[7] = 0.8660254037844386 * w.sin_2el * w.cos_az; // S
    gains[8] = 0.8660254037844386 * cos_el_sq * w.cos_2az; // U
    gains
}

// And order 3: ACN 9-15.
fn third_order(w: Waves) -> [f64; 16]
    ensures { result ≡ Computed.up_to 3 w }
{
    let mut gains = second_order(w);
    let cos_el_sq = w.cos_el * w.cos_el;
    let cos_el_cu = cos_el_sq * w.cos_el;
    let sin_el_sq = w.sin_el * w.sin_el;
    gains[9] = 0.7905694150420949 * cos_el_cu * w.sin_3az; // Q
    gains[10] = 1.9364916731037085 * cos_el_sq * w.sin_el * w.sin_2az; // O
    gains[11] = 0.6123724356957945 * w.cos_el * (5.0 * sin_el_sq - 1.0) * w.sin_az; // M
    gains[12] = 0.5 * w.sin_el * (5.0 * sin_el_sq - 3.0); // K
    gains[13] = 0.6123724356957945 * w.cos_el * (5.0 * sin_el_sq - 1.0) * w.cos_az; // L
    gains[14] = 1.9364916731037085 * cos_el_sq * w.sin_el * w.cos_2az; // N
    gains[15] = 0.7905694150420949 * cos_el_cu * w.cos_3az; // P
    gains
}

// The sixteen of an accepted order.
fn gains_of(order: usize, w: Waves) -> [f64; 16]
    ensures { result ≡ Computed.harmonics_computed order w }
{
    if order == 1 {
        return first_order(w);
    }
    if order == 2 {
        return second_order(w);
    }
    third_order(w)
}

// The coefficients of a direction, up to an order.
pub fn compute_sh_coefficients(order: usize, direction: Direction) -> Result<[f64; 16], Refusal>
    ensures { Said.HarmonicsPromise order direction (Said.coefficients result) }
{
    if channel::refuses_order(order) {
        return Err(Refusal::Order);
    }
    if refuses_direction(direction) {
        return Err(Refusal::Angle);
    }
    Ok(gains_of(order, waves_of(direction)))
}
