// Gives the weights with which a virtual speaker plays ambisonic channels, and the eight positions at which
// virtual speakers stand (document 01, item 7 and 'Gains', from virtual_speaker.rs).
//
// The weights are the coefficients of a direction with max-rE weights: degree l of order N times c^l with c =
// cos(A/(2(N+1))), A = 2.406184877014388 radians. The positions are those of 003.
//
// `compute_sh_coefficients_max_re` takes any order and any direction, and refuses as `harmonics` does: 1 for
// an order, 3 for a direction, and sixteen times 0.0. Else the promise (specs/Promise.antt) fixes each bit of
// the sixteen, and says beside it that each is within 2^-34 of document 01's formula over the defined series,
// the coefficient's formula times the power of the cosine.
//
// proofs/Near.antt shows 2^-41, by this budget in units of 2^-50, of which 2^-41 is 512:
//
//   step                                                    units
//   a coefficient, 5 at most in magnitude                     256
//   c, the f64 nearest the cosine                            1/16
//   c * c                                                     1/4
//   c * c * c                                                7/16
//   a coefficient of degree 0 or 1 times its weight           257
//   of degree 2                                               258
//   of degree 3                                               259
#![tactic(auto)]

ghost use Rattle.std.specs.Prelude.{◌≡◌};
ghost use Rattle.virtual_speaker.specs.Weights.{degree_of};
ghost use Rattle.virtual_speaker.specs.Computed as Computed;
ghost use Rattle.virtual_speaker.specs.Promise as Said;

use harmonics::Direction;
use refusals::Refusal;

// cos(A/(2(N+1))) for an order N of 1, 2 and 3.
const COSINES: [f64; 3] = [0.8244615675902878, 0.9206590873000569, 0.9551077341301053];

fn max_re_cosine(order: usize) -> f64
    ensures { result ≡ Computed.cosine_of order }
{
    match order {
        1 => COSINES[0],
        2 => COSINES[1],
        _ => COSINES[2],
    }
}

// The weight of a channel, by its degree: l² to (l+1)² - 1 are of degree l.
fn weight(c: f64, channel: usize) -> f64
    ensures { result ≡ Computed.weight c (degree_of channel) }
{
    match channel {
        0 => 1.0,
        1..=3 => c,
        4..=8 => c * c,
        _ => c * c * c,
    }
}

// Each coefficient times its weight.
fn weigh(coeffs: [f64; 16], c: f64) -> [f64; 16]
    ensures { result ≡ Computed.weigh c coeffs }
{
    let mut weights = coeffs;
    for (channel, coefficient) in weights.iter_mut().enumerate() {
        *coefficient *= weight(c, channel);
    }
    weights
}

// The coefficients of a direction, up to an order, with max-rE weights.
pub fn compute_sh_coefficients_max_re(
    order: usize,
    direction: Direction,
) -> Result<[f64; 16], Refusal>
    ensures { Said.MaxRePromise order direction (Said.weighing result) }
{
    let coeffs = harmonics::compute_sh_coefficients(order, direction)?;
    Ok(weigh(coeffs, max_re_cosine(order)))
}

// Where virtual speaker i stands; 2 beyond the eight.
pub fn foa_position(i: usize) -> Result<Direction, Refusal>
    ensures { Said.positioned result ≡ Said.position_answer i }
{
    let azimuth = channel::position_azimuth(i)?;
    Ok(Direction {
        azimuth,
        elevation: 0.0,
    })
}
