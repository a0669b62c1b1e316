// Decides whether a call of the convolver is refused, and why: by 2, 4, 5, 7 or 8 of document 01 ('Refusal
// numbers').
//
// These are the refusals whose argument `hrtf::process` has. Each test is a function of its own, in document
// 01's words; `refusal` gives that of the first that holds, and none where none does. It takes any input,
// and promises the number by an equation.
#![tactic(auto)]

ghost use Rattle.std.specs.Prelude.{◌≡◌, ◌≤◌};
ghost use Rattle.refusals.specs.Numbers.{number_found};
ghost use Rattle.hrtf_checks.specs.Refusals.{row_missing, misshapen, convolver_unfit, desk_out_of_range, refusal_of};

use hrtf_desk::Desk;
use refusals::Refusal;

// What stays the same from frame to frame: how many channels and speakers there are, how many rows the
// bank has, and the length L of its filters.
#[derive(Clone, Copy)]
pub struct ConvolverShape {
    pub channels: usize,
    pub speakers: usize,
    pub rows: usize,
    pub length: usize,
}

// Whether a speaker's row isn't in the bank. Entries beyond the speakers are not looked at.
fn is_row_missing(row_of: &[usize; 8], speakers: usize, rows: usize) -> bool
    requires { speakers ≤ 8 }
    ensures { result ≡ row_missing row_of.now speakers rows }
{
    row_of[..speakers].iter().any(|row| rows <= *row)
}

// Whether speakers or bank rows are not 1..8, or channels not 1..16, or a speaker's row isn't in the bank.
fn is_misshapen(shape: ConvolverShape, row_of: &[usize; 8]) -> bool
    ensures { result ≡ misshapen shape row_of.now }
{
    let speakers = shape.speakers;
    let rows = shape.rows;
    if refusals::is_outside(speakers, 8) {
        return true;
    }
    if refusals::is_outside(rows, 8) {
        return true;
    }
    if refusals::is_outside(shape.channels, 16) {
        return true;
    }
    is_row_missing(row_of, speakers, rows)
}

// Whether a lent length doesn't fit. Products of lengths that may not fit in 64 bits are not formed.
fn is_misfit(
    shape: ConvolverShape,
    frames: usize,
    stride: usize,
    inputs: usize,
    weights: usize,
    taps: usize,
    rings: usize,
    ears: usize,
) -> bool
    requires { shape.rows ≤ 8 }
    ensures { result ≡ convolver_unfit shape frames stride inputs weights taps rings ears }
{
    let speakers = shape.speakers;
    let length = shape.length;
    if checks::is_block_unfit(inputs, shape.channels, ears, 2, stride, frames) {
        return true;
    }
    if !checks::is_product(rings, speakers, length) {
        return true;
    }
    if !checks::is_product(weights, speakers, shape.channels) {
        return true;
    }
    !checks::is_product(taps, 2 * shape.rows, length)
}

// Whether the ring position or the frames to go are not below L.
fn is_desk_out_of_range(desk: Desk, length: usize) -> bool
    ensures { result ≡ desk_out_of_range desk length }
{
    let position = desk.position;
    let to_go = desk.to_go;
    if length <= position {
        return true;
    }
    length <= to_go
}

// The refusal of the first test that holds.
pub fn refusal(
    desk: Desk,
    shape: ConvolverShape,
    frames: usize,
    stride: usize,
    inputs: &[f32],
    weights: &[f64],
    row_of: &[usize; 8],
    taps: &[f32],
    rings: &[f32],
    ears: &[f32],
) -> Option<Refusal>
    ensures { number_found result ≡ refusal_of
        (record {
          shape = shape;
          frames = frames;
          stride = stride;
          inputs = inputs.now;
          weights = weights.now;
          rows = row_of.now;
          taps = taps.now;
          ears = ears.now;
        })
        (record { rings = rings.now; desk = desk }) }
{
    if is_misshapen(shape, row_of) {
        return Some(Refusal::Count);
    }
    if refusals::is_outside(shape.length, 512) {
        return Some(Refusal::FilterLength);
    }
    if is_misfit(
        shape,
        frames,
        stride,
        inputs.len(),
        weights.len(),
        taps.len(),
        rings.len(),
        ears.len(),
    ) {
        return Some(Refusal::Misfit);
    }
    if checks::has_nonfinite(weights) {
        return Some(Refusal::NotFinite);
    }
    if checks::has_nonfinite(taps) {
        return Some(Refusal::NotFinite);
    }
    if is_desk_out_of_range(desk, shape.length) {
        return Some(Refusal::Desk);
    }
    None
}
