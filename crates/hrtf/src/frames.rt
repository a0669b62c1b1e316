// The frames of a block that is accepted, one after another in the order of time. A frame's signals are put
// into the rings by `planes`, at the desk's position; then each ear's parts are added, speakers rising; then
// the desk's record is changed where it stands.
ghost use Rattle.std.specs.Prelude.{◌≡◌, ◌||◌, suc, ◌≤◌, ◌<◌, ltb};
ghost use Rattle.planes.specs.Planes.{frame_at};
ghost use Rattle.hrtf.specs.Computed.{scaled_of, ScaledReady, ears_by, FramePlayed, BlockPlayed};

use hrtf_checks::ConvolverShape;
use hrtf_desk::Desk;

// Whether a frame that was played is unsettled, and whether it is damaged.
#[derive(Clone, Copy)]
struct PlayedFrame {
    unsettled: bool,
    damaged: bool,
}

// The desk after a block, and how many of its frames are unsettled.
#[derive(Clone, Copy)]
pub(crate) struct Turn {
    pub(crate) desk: Desk,
    pub(crate) unsettled: usize,
}

// A shape, and 1.0 over the root of its speakers.
#[derive(Clone, Copy)]
pub(crate) struct Scaled {
    pub(crate) shape: ConvolverShape,
    pub(crate) inverse_root: f64,
}

// The root is taken here, once for a block.
pub(crate) fn scale(shape: ConvolverShape) -> Scaled
    requires { (0 < shape.speakers) × (shape.speakers ≤ 8) }
    ensures { result ≡ scaled_of shape }
{
    let inverse_root = numbers::inverse_root(shape.speakers as u32).unwrap();
    Scaled {
        shape,
        inverse_root,
    }
}

// The two samples of a frame.
#[derive(Clone, Copy)]
struct EarSamples {
    left: f32,
    right: f32,
}

// What the ears hear of the rings: each ear's parts are added, speakers rising.
fn ears_of(
    scaled: Scaled,
    position: usize,
    row_of: &[usize; 8],
    taps: &[f32],
    rings: &[f32],
) -> EarSamples
    requires { ScaledReady scaled position row_of.now taps.now rings.now }
    ensures { result ≡ ears_by scaled.shape row_of.now taps.now (suc position)
        rings.now }
{
    let shape = scaled.shape;
    let speakers = shape.speakers;
    let mut left = 0.0;
    let mut right = 0.0;
    for (s, row) in row_of[..speakers].iter().enumerate() {
        let parts = crate::parts::of_speaker(shape, position, s, *row, taps, rings);
        left = left + parts.left;
        right = right + parts.right;
    }
    EarSamples {
        left: numbers::narrow(left * scaled.inverse_root),
        right: numbers::narrow(right * scaled.inverse_root),
    }
}

// Whether a frame is damaged, or has frames to go before it.
fn is_late(damaged: bool, to_go: usize) -> bool
    ensures { result ≡ (damaged || ltb 0 to_go) }
{
    damaged || 0 < to_go
}

// Frame n of the planes, with the desk's record as it stands before it.
fn one_frame(
    n: usize,
    desk: Desk,
    scaled: Scaled,
    stride: usize,
    inputs: &[f32],
    weights: &[f64],
    row_of: &[usize; 8],
    taps: &[f32],
    rings: &mut [f32],
    ears: &mut [f32],
) -> PlayedFrame
    requires { ScaledReady scaled desk.position row_of.now taps.now rings.old }
    ensures { FramePlayed scaled.shape weights.now row_of.now taps.now
        (record { rings = rings.old; desk = desk })
        (frame_at inputs.now stride scaled.shape.channels n) stride n ears.old rings.new ears.new
        result.unsettled result.damaged }
{
    let shape = scaled.shape;
    let speakers = shape.speakers;
    let length = shape.length;
    let position = desk.position;
    let to_go = desk.to_go;
    let damaged = planes::mix_frame(
        rings,
        length,
        position,
        speakers,
        weights,
        shape.channels,
        inputs,
        stride,
        n,
    );
    let heard = ears_of(scaled, position, row_of, taps, rings);
    planes::put_sample(ears, stride, 0, n, heard.left);
    planes::put_sample(ears, stride, 1, n, heard.right);
    PlayedFrame {
        unsettled: is_late(damaged, to_go),
        damaged,
    }
}

// The first frames of the planes, in the order of time. The desk's record stands here, and is changed where
// it stands after each frame.
pub(crate) fn block(
    desk: Desk,
    scaled: Scaled,
    frames: usize,
    stride: usize,
    inputs: &[f32],
    weights: &[f64],
    row_of: &[usize; 8],
    taps: &[f32],
    rings: &mut [f32],
    ears: &mut [f32],
) -> Turn
    requires { ScaledReady scaled desk.position row_of.now taps.now rings.old }
    ensures { BlockPlayed
        (record {
          shape = scaled.shape;
          frames = frames;
          stride = stride;
          inputs = inputs.now;
          weights = weights.now;
          rows = row_of.now;
          taps = taps.now;
          ears = ears.old;
        })
        (record { rings = rings.old; desk = desk }) rings.new ears.new result.desk
        result.unsettled }
{
    let mut standing = desk;
    let mut unsettled = 0;
    for n in 0..frames {
        let played = one_frame(
            n, standing, scaled, stride, inputs, weights, row_of, taps, rings, ears,
        );
        unsettled += usize::from(played.unsettled);
        hrtf_desk::step(&mut standing, scaled.shape.length, played.damaged);
    }
    Turn {
        desk: standing,
        unsettled,
    }
}
