// Turns the bytes of the programs into frames, and ears into bytes, and makes the one line that is printed
// (document 01, item 10; document 02, E2).
//
// Frames of six big-endian f32 come in and are put into planes, the two ears of each frame go out as left
// then right, big-endian. Bytes come in parts of any size: what has come of a record that is not whole yet is
// kept at the start of the buffer. A program that takes other records shares all but `frames_from_bytes`.
//
// Every public function takes any input, and its promise is an equation for its answer and for the list that
// it fills, over the definitions of specs/. Planes and lists that have no room for every frame are refused
// with 5, so that no sample is lost. That the records in a list of bytes are those of its two parts, wherever
// it is cut, is a law over the record's size and over what it says (proofs/Cut.antt).
#![tactic(auto)]

ghost use Rattle.std.specs.Prelude.{◌≡◌, ◌+◌, ◌*◌, ◌≤◌, length};
ghost use Rattle.lists.specs.Placed.{placed};
ghost use Rattle.big_endian.specs.Lists.{float_bytes};
ghost use Rattle.planes.specs.Planes.{frame_at, frames_of, with_frame, with_frames};
ghost use Rattle.ears_wire.specs.Records.{whole_in_of};
ghost use Rattle.ears_wire.specs.Frames.{frame_of, line_frames};
ghost use Rattle.ears_wire.specs.Ears.{ear_bytes};
ghost use Rattle.ears_wire.specs.Promise.{taken_told, frames_taken, given_told, ears_given};

use refusals::Refusal;

mod line;
mod records;

pub use line::{frames_line, refused_at_line, refused_line};
pub use records::{count_on, keep_rest};

// How many bytes a frame of six f32 has, and the two ears of a frame.
const FRAME: usize = 24;

const EARS: usize = 8;

// Puts the six samples of a record into the planes, as frame n.
fn take_frame(bytes: &[u8], n: usize, stride: usize, inputs: &mut [f32])
    ensures { inputs.new ≡ with_frame inputs.old stride n (frame_of bytes.now) }
{
    for c in 0..6 {
        let x = big_endian::get_f32(bytes, c * 4);
        planes::put_sample(inputs, stride, c, n, x);
    }
}

// Puts the whole frames of the bytes into the planes.
fn take_frames(bytes: &[u8], frames: usize, stride: usize, inputs: &mut [f32])
    requires { frames ≡ whole_in_of 24 bytes.now }
    ensures { inputs.new ≡ with_frames inputs.old stride 0
        (line_frames bytes.now) }
{
    for n in 0..frames {
        let from = n * FRAME;
        let to = from + FRAME;
        take_frame(&bytes[from..to], n, stride, inputs);
    }
}

// Puts the whole frames of the bytes into six planes, or refuses planes that have no room for them. Answers how many
// there are.
pub fn frames_from_bytes(bytes: &[u8], stride: usize, inputs: &mut [f32]) -> Result<usize, Refusal>
    ensures { record { answer = taken_told result; inputs = inputs.new } ≡ frames_taken bytes.now stride
        inputs.old }
{
    let frames = bytes.len() / FRAME;
    if checks::is_unfit(inputs.len(), 6, stride, frames) {
        return Err(Refusal::Misfit);
    }
    take_frames(bytes, frames, stride, inputs);
    Ok(frames)
}

// Puts the two ears of frame n, left then right, where they belong.
fn give_ears(ears: &[f32], stride: usize, n: usize, out: &mut [u8])
    requires { n * 8 + 8 ≤ length out.old }
    ensures { out.new ≡ placed out.old (n * 8)
        (float_bytes (frame_at ears.now stride 2 n)) }
{
    let at = n * EARS;
    let left = planes::sample(ears, stride, 0, n);
    let right = planes::sample(ears, stride, 1, n);
    big_endian::put_f32(out, at, left);
    big_endian::put_f32(out, at + 4, right);
}

// Puts the ears of the first frames at the start of out.
fn give_frames(ears: &[f32], stride: usize, frames: usize, out: &mut [u8])
    requires { frames * 8 ≤ length out.old }
    ensures { out.new ≡ placed out.old 0
        (ear_bytes (frames_of ears.now stride 2 frames)) }
{
    for n in 0..frames {
        give_ears(ears, stride, n, out);
    }
}

// Puts the ears of the first frames at the start of out, or refuses planes that have not so many and a list that has
// no room for them. Answers how many bytes they have.
pub fn bytes_from_ears(
    ears: &[f32],
    stride: usize,
    frames: usize,
    out: &mut [u8],
) -> Result<usize, Refusal>
    ensures { record { answer = given_told result; out = out.new } ≡ ears_given ears.now stride frames
        out.old }
{
    if checks::is_unfit(ears.len(), 2, stride, frames) {
        return Err(Refusal::Misfit);
    }
    if out.len() / EARS < frames {
        return Err(Refusal::Misfit);
    }
    give_frames(ears, stride, frames, out);
    Ok(frames * EARS)
}
