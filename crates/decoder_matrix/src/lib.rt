// Makes the matrix by which ambisonic channels are played to the speakers of a layout (document 01, item 5
// and 'Gains', from ambisonic_decoder.rs).
//
// It holds the harmonics at each speaker times 1/root(n), a row a speaker, put into a lent list. The block
// that plays through it is `ambisonic_decoder::process`.
//
// `compute_decoder_matrix` takes any input. Its promise (specs/Promise.antt) is one equation for the refusal
// and the list, and beside it says of each weight that it is within 2^-33 of document 01's formula, by
// squares. It comes from a harmonic within 2^-42, one root, one division and one product, 2^-53 each; with
// 2^-41 for 2^-33 the same proof passes, and with 2^-42 it fails.
#![tactic(auto)]

ghost use Rattle.std.specs.Prelude.{◌≡◌, ◌≤◌, ◌<◌, take};
ghost use Rattle.std.proofs.lemmas.List.Edits.{sets};
ghost use Rattle.refusals.specs.Numbers.{number_in};
ghost use Rattle.rows.specs.Rows.{scaled};
ghost use Rattle.harmonics.specs.Promise.{outcome};
ghost use Rattle.decoder_matrix.specs.Speakers.{custom_azimuth, turned_back, azimuth_by, towards};
ghost use Rattle.decoder_matrix.specs.Matrix.{rows_by};
ghost use Rattle.rows.specs.Computed.{put_rows};
ghost use Rattle.decoder_matrix.specs.Promise.{DecoderMatrixPromise};

use channel::Layout;
use harmonics::Direction;
use refusals::Refusal;

// Where a speaker of a Custom layout sits: each operation is rounded once.
fn custom_azimuth(n: u32, i: u32) -> f64
    ensures { result ≡ custom_azimuth n i }
{
    let angle_step = 360.0 / (n as f64);
    (i as f64) * angle_step - 90.0
}

// An azimuth above 180, turned back by 360.
fn turned_back(azimuth: f64) -> f64
    ensures { result ≡ turned_back azimuth }
{
    if 180.0 < azimuth {
        return azimuth - 360.0;
    }
    azimuth
}

// Where speaker i of n sits; the LFE counts as 0.
fn speaker_position(layout: Layout, n: u32, i: u32) -> f64
    ensures { result ≡ azimuth_by layout n i }
{
    if let Layout::Custom(_) = layout {
        return turned_back(custom_azimuth(n, i));
    }
    channel::speaker_azimuth(layout, i as usize).unwrap_or(0.0)
}

// Puts the row of a speaker: the first channels of its harmonics, times the scale.
fn put_speaker(
    order: usize,
    azimuth: f64,
    channels: usize,
    scale: f64,
    weights: &mut [f64],
    at: usize,
)
    requires { channels ≤ 16 }
    ensures { weights.new ≡ sets weights.old at
        (scaled scale (take channels (outcome order (towards azimuth)).gains)) }
{
    let direction = Direction {
        azimuth,
        elevation: 0.0,
    };
    let gains = harmonics::compute_sh_coefficients(order, direction).unwrap_or([0.0; 16]);
    rows::put_row(&gains[..channels], scale, weights, at);
}

// Puts the rows of the n speakers, one behind another.
fn put_speakers(order: usize, layout: Layout, n: u32, channels: usize, weights: &mut [f64])
    requires { (0 < n) × (n ≤ 16) × (channels ≤ 16) }
    ensures { weights.new ≡ put_rows channels weights.old 0
        (rows_by order layout n channels) }
{
    let scale = numbers::inverse_root(n).unwrap();
    let mut at = 0;
    for i in 0..n {
        let azimuth = speaker_position(layout, n, i);
        put_speaker(order, azimuth, channels, scale, weights, at);
        at += channels;
    }
}

// The matrix of an order and a layout, speakers x channels.
pub fn compute_decoder_matrix(
    order: usize,
    layout: Layout,
    weights: &mut [f64],
) -> Result<(), Refusal>
    ensures { DecoderMatrixPromise order layout weights.old
        (record { refusal = number_in result; weights = weights.new }) }
{
    let channels = channel::ambisonic_channel_count(order)?;
    let speakers = channel::channel_count(layout)?;
    if !checks::is_product(weights.len(), speakers, channels) {
        return Err(Refusal::Misfit);
    }
    put_speakers(order, layout, speakers as u32, channels, weights);
    Ok(())
}
