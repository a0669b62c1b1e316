// Turns a stereo position into the gains of the left and the right channel (document 01, item 4 and 'Gains',
// from panner.rs).
//
// A position from -100, left, to 100, right, is clamped to these ends; the left gain is the cosine and the
// right gain the sine of 90 degrees times (p + 100) / 200.
//
// It takes any input; its promise (specs/Promise.antt) fixes the answer bit for bit and says that both gains
// are within 2^-36 of document 01's formula at the exact angle. What is lost on the way:
//
//   (p + 100) / 200 * 90, three operations rounded    2^-44.9 degrees
//   the sine or cosine a degree's part off            a quarter of that, and 2^-52
//   the program's sine or cosine                      2^-50
#![tactic(auto)]

ghost use Rattle.std.specs.Prelude.{◌≡◌};
ghost use Rattle.stereo.specs.Promise.{StereoPromise, steered};

use refusals::Refusal;

#[derive(Clone, Copy)]
pub struct StereoGains {
    pub left: f64,
    pub right: f64,
}

pub fn calculate_stereo_gains(position: f64) -> Result<StereoGains, Refusal>
    ensures { StereoPromise position (steered result) }
{
    if !checks::is_finite(position) {
        return Err(Refusal::Angle);
    }
    let normalized = (position.clamp(-100.0, 100.0) + 100.0) / 200.0;
    let angle = normalized * 90.0;
    let left = angles::cosine(angle).unwrap();
    let right = angles::sine(angle).unwrap();
    Ok(StereoGains { left, right })
}
