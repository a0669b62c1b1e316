// One turn of the program (document 01, item 10): the bytes that have come are taken as whole frames, the
// frames are played by the convolver, the ears go out as bytes, and what is left of a frame that has not come
// whole stays for the next turn. All that is remembered between turns is one small record.
//
// The convolver judges each block once, and with a set-up that is ready and a state that fits none is refused.
ghost use Rattle.std.specs.Prelude.{◌≡◌, ◌≤◌, ◌<◌, length, take, drop};
ghost use Rattle.io.specs.Counts.{IsPrefixLen};
ghost use Rattle.hrtf_rings.specs.State.{StateFits};
ghost use Rattle.hrtf_checks.specs.Call.{setup_of};
ghost use Rattle.ears_file.specs.Turns.{at_start, BlocksAccepted, Further};

use hrtf_checks::ConvolverShape;
use hrtf_desk::Desk;

// What is remembered between turns: the desk, how many bytes of a frame that has not come whole stand at the
// start of the buffer, and how many frames were played and how many of them are unsettled.
#[derive(Clone, Copy)]
pub(crate) struct Progress {
    pub(crate) desk: Desk,
    pub(crate) held: usize,
    pub(crate) frames: u64,
    pub(crate) unsettled: u64,
}

// What a turn answers: the progress, and how many bytes are put out.
#[derive(Clone, Copy)]
pub(crate) struct Turn {
    pub(crate) progress: Progress,
    pub(crate) bytes: usize,
}

// How many bytes a frame has.
const FRAME: usize = 24;

// Frames of a block, and the places of a plane.
const BLOCK: usize = 1024;

// Before the first turn.
pub(crate) fn start() -> Progress
    ensures { result ≡ at_start }
{
    Progress {
        desk: Desk {
            position: 0,
            to_go: 0,
        },
        held: 0,
        frames: 0,
        unsettled: 0,
    }
}

// Plays the `size` bytes that have come and stand at the start of `bytes`: those that were held, and some more.
pub(crate) fn play(
    progress: Progress,
    size: usize,
    bytes: &mut [u8],
    shape: ConvolverShape,
    inputs: &mut [f32; 6144],
    weights: &[f64],
    row_of: &[usize; 8],
    taps: &[f32],
    rings: &mut [f32],
    ears: &mut [f32; 2048],
    out: &mut [u8; 8192],
) -> Turn
    requires blocks_accepted { BlocksAccepted shape weights.now row_of.now taps.now }
    requires state_fits { StateFits shape.speakers shape.length (record { rings = rings.old; desk = progress.desk }) }
    requires held_lt_size { (progress.held < size) × (size ≤ 24576) × (size ≤ length bytes.old) }
    ensures further { Further (setup_of shape weights.now row_of.now taps.now)
        progress rings.old bytes.old (drop progress.held (take size bytes.old))
        result rings.new bytes.new out.new }
    ensures room { IsPrefixLen result.bytes out.new }
{
    let desk = progress.desk;
    let frames = ears_wire::frames_from_bytes(&bytes[..size], BLOCK, inputs).unwrap();
    let played = hrtf::process(
        desk, shape, frames, BLOCK, inputs, weights, row_of, taps, rings, ears,
    )
    .unwrap();
    let given = ears_wire::bytes_from_ears(ears, BLOCK, frames, out).unwrap();
    let from = frames * FRAME;
    ears_wire::keep_rest(bytes, from, size);
    let next = played.desk;
    Turn {
        progress: Progress {
            desk: next,
            held: size - from,
            frames: ears_wire::count_on(progress.frames, frames),
            unsettled: ears_wire::count_on(progress.unsettled, played.unsettled),
        },
        bytes: given,
    }
}
