// Turns an azimuth into a gain for each speaker of 5.1 or 7.1 (document 01, item 4 and 'Gains', from
// calculate_vbap_gains of panner.rs; the raw gain is document 02's, E3).
//
// Each speaker that is less than 90 degrees away from the azimuth, by the shorter way round d, sounds with
// cos d over the root of the sum of the squares: the speaker that the azimuth points at is the loudest. The
// others and the LFE are exactly 0.0.
//
// It takes any input; its promise (specs/Promise.antt) fixes the answer bit for bit, and says that every gain
// is within 2^-30, by squares, of the documents' formula, and that the sum of squares is 3/100 at least.
// Whether d is less than 90 is decided by comparing the azimuth with whole numbers: nothing is rounded there.
// What is lost elsewhere:
//
//   d, one operation rounded                        2^-46.5 degrees
//   the cosine there                                2^-47
//   the sum of eight squares                        2^-42.9
//   a gain, by squares, at a sum of 3/100           2^-37
#![tactic(auto)]

ghost use Rattle.std.specs.Prelude.{◌≡◌, ◌≤◌};
ghost use Rattle.surround.specs.Computed.{absolute, turned_towards, is_near, raw_of, channel_gain, raw_gains, sum_of};
ghost use Rattle.surround.specs.Computed.{divided_by};
ghost use Rattle.surround.specs.Promise.{SurroundPromise};
ghost use Rattle.harmonics.specs.Promise.{coefficients};

use refusals::Refusal;

// Kept: `x.abs()` takes -0.0 to 0.0, and the promise, which fixes each bit by this way, keeps its sign.
fn absolute_value(x: f64) -> f64
    ensures { result ≡ absolute x }
{
    if x < 0.0 {
        return -x;
    }
    x
}

// Where a speaker stands from which the way to the azimuth is the shorter one: a turn on or back, if need be.
fn place(azimuth: f64, speaker: f64) -> f64
    ensures { result ≡ turned_towards azimuth speaker }
{
    if speaker + 180.0 < azimuth {
        return speaker + 360.0;
    }
    if azimuth < speaker - 180.0 {
        return speaker - 360.0;
    }
    speaker
}

// Whether the azimuth is less than 90 degrees away from a place, which is a whole number.
fn is_near(azimuth: f64, place: f64) -> bool
    ensures { result ≡ is_near azimuth place }
{
    place - 90.0 < azimuth && azimuth < place + 90.0
}

// The gain of a speaker before it is divided.
fn raw_gain(azimuth: f64, speaker: f64) -> f64
    ensures { result ≡ raw_of azimuth speaker }
{
    let place = place(azimuth, speaker);
    if !is_near(azimuth, place) {
        return 0.0;
    }
    let gain = angles::cosine(absolute_value(azimuth - place)).unwrap_or(0.0);
    // Kept: `max` leaves open which of -0.0 and 0.0 it answers, and the promise fixes each bit.
    if gain < 0.0 {
        return 0.0;
    }
    gain
}

// The same of a channel: the LFE's is 0.0.
fn channel_gain(layout: channel::Layout, azimuth: f64, channel: usize) -> f64
    ensures { result ≡ channel_gain layout azimuth channel }
{
    if channel::is_low_frequency(layout, channel) {
        return 0.0;
    }
    let speaker = channel::speaker_azimuth(layout, channel).unwrap_or(0.0);
    raw_gain(azimuth, speaker)
}

fn raw_gains(layout: channel::Layout, azimuth: f64, channels: usize) -> [f64; 16]
    requires { channels ≤ 16 }
    ensures { result ≡ raw_gains layout azimuth channels }
{
    let mut gains = [0.0; 16];
    for (c, gain) in gains[..channels].iter_mut().enumerate() {
        *gain = channel_gain(layout, azimuth, c);
    }
    gains
}

fn sum_of_squares(gains: [f64; 16], channels: usize) -> f64
    requires { channels ≤ 16 }
    ensures { result ≡ sum_of channels gains }
{
    let mut sum = 0.0;
    for gain in &gains[..channels] {
        sum += gain * gain;
    }
    sum
}

fn divided(raw: [f64; 16], root: f64) -> [f64; 16]
    ensures { result ≡ divided_by root raw }
{
    let mut gains = raw;
    for gain in &mut gains {
        *gain /= root;
    }
    gains
}

pub fn calculate_vbap_gains(layout: channel::Layout, azimuth: f64) -> Result<[f64; 16], Refusal>
    ensures { SurroundPromise layout azimuth (coefficients result) }
{
    if !channel::is_surround(layout) {
        return Err(Refusal::Count);
    }
    if harmonics::refuses_azimuth(azimuth) {
        return Err(Refusal::Angle);
    }
    let channels = channel::channel_count(layout).unwrap();
    let raw = raw_gains(layout, azimuth, channels);
    let root = numbers::root(sum_of_squares(raw, channels)).unwrap();
    Ok(divided(raw, root))
}
