// Plays blocks of ambisonic frames through a matrix of weights, to the speakers of a layout or to the two
// ears.
//
// Document 01, item 5, from ambisonic_decoder.rs. The matrix is outputs x channels, and is lent. Binaural
// rows are played here too, as a matrix of two outputs.
//
// `process` takes any input. Its promise (specs/Promise.antt) is one equation for the refusal, the sample
// count and the output planes: frame n of the outputs holds document 01's ordered sum of frame n of the
// inputs, for each output, narrowed.
#![tactic(auto)]

ghost use Rattle.std.specs.Prelude.{◌≡◌, ◌≤◌};
ghost use Rattle.refusals.specs.Numbers.{number_in};
ghost use Rattle.planes.specs.Planes.{with_frames};
ghost use Rattle.planes.specs.Blocks.{played};
ghost use Rattle.ambisonic_decoder.specs.Blocks.{decoder_unfit, refusal_of, decoded};
ghost use Rattle.ambisonic_decoder.specs.Promise.{DecoderPromise};

use refusals::Refusal;

// How many of each there are: outputs, channels, frames, and places in a plane.
#[derive(Clone, Copy)]
struct DecoderShape {
    outputs: usize,
    channels: usize,
    frames: usize,
    stride: usize,
}

// Whether a lent length doesn't fit.
fn is_misfit(shape: DecoderShape, weights: usize, inputs: usize, out: usize) -> bool
    ensures { result ≡ decoder_unfit shape weights inputs out }
{
    let outputs = shape.outputs;
    let channels = shape.channels;
    if checks::is_block_unfit(inputs, channels, out, outputs, shape.stride, shape.frames) {
        return true;
    }
    !checks::is_product(weights, outputs, channels)
}

// Refuses by the first test that holds.
fn check(shape: DecoderShape, weights: &[f64], inputs: usize, out: usize) -> Result<(), Refusal>
    ensures { number_in result ≡ refusal_of shape weights.now inputs out }
{
    if refusals::is_outside(shape.outputs, 16) {
        return Err(Refusal::Count);
    }
    if refusals::is_outside(shape.channels, 16) {
        return Err(Refusal::Count);
    }
    if is_misfit(shape, weights.len(), inputs, out) {
        return Err(Refusal::Misfit);
    }
    if checks::has_nonfinite(weights) {
        return Err(Refusal::NotFinite);
    }
    Ok(())
}

// Plays every frame.
fn play(shape: DecoderShape, weights: &[f64], inputs: &[f32], out: &mut [f32])
    ensures { out.new ≡ with_frames out.old shape.stride 0
        (decoded shape weights.now inputs.now) }
{
    for n in 0..shape.frames {
        planes::mix_frame(
            out,
            shape.stride,
            n,
            shape.outputs,
            weights,
            shape.channels,
            inputs,
            shape.stride,
            n,
        );
    }
}

// Plays a block through a matrix of weights, outputs x channels, or refuses it.
pub fn process(
    weights: &[f64],
    outputs: usize,
    channels: usize,
    frames: usize,
    stride: usize,
    inputs: &[f32],
    out: &mut [f32],
) -> Result<usize, Refusal>
    ensures { DecoderPromise weights.now
        (record { outputs = outputs; channels = channels; frames = frames; stride = stride }) inputs.now
        out.old (played result) out.new }
{
    let shape = DecoderShape {
        outputs,
        channels,
        frames,
        stride,
    };
    check(shape, weights, inputs.len(), out.len())?;
    play(shape, weights, inputs, out);
    Ok(frames)
}
