// Gathers the frames as they are fed in a block of 64 places a plane: recorded frames, silence for the missing
// ones, none for the late ones (document 02, E5).
//
// A block ends when it is full, before a reset, or with the recording; so the convolver's checks are made once
// for a block and not for each frame. `gather` goes on from a place of the recording; the frames in the block,
// the reset if there is one, and what the rest of the recording does, are together what the recording does from
// that place on (specs/Computed.antt).
ghost use Rattle.std.specs.Prelude.{◌≡◌, ◌*◌, ◌≤◌, ◌<◌, ℕ, length};
ghost use Rattle.std.specs.Float.{Float};
ghost use Rattle.lists.specs.Tables.{tab};
ghost use Rattle.planes.specs.Planes.{with_frame};
ghost use Rattle.replay.specs.Recording.{recording};
ghost use Rattle.replay.specs.Computed.{Gives, is_gathering_on, TakesFrame, Gathers};

use stamps::Arrival;

// The places of a plane of the block.
pub(crate) const PLACES: usize = 64;

// How many frames are in the block, the recorded frame that comes next, whether a reset comes before it, and what
// is expected.
#[derive(Clone, Copy)]
pub(crate) struct Gathered {
    pub(crate) count: usize,
    pub(crate) at: usize,
    pub(crate) restart: bool,
    pub(crate) expected: Option<u32>,
}

// Puts a frame into the block: the sample that the source gives for each channel.
fn put_frame<F: Fn(usize) -> f32>(block: &mut [f32], place: usize, channels: usize, source: F)
    requires { F.IsAlwaysCallable source }
    ensures { (f : ℕ → Float) → Gives (F.post source) f
        → block.new ≡ with_frame block.old 64 place (tab 0 channels f) }
{
    for p in 0..channels {
        planes::put_sample(block, PLACES, p, place, source(p));
    }
}

// One frame into the block, or one late frame passed over, or a reset.
fn take_one(
    so_far: Gathered,
    stamps: &[u32],
    channels: usize,
    stride: usize,
    inputs: &[f32],
    block: &mut [f32],
) -> Gathered
    requires { (so_far.count < 64) × (so_far.at < length stamps.now) }
    ensures { TakesFrame stamps.now channels stride inputs.now so_far
        block.old result block.new }
{
    let at = so_far.at;
    let count = so_far.count;
    let expected = so_far.expected;
    let stamp = stamps[at];
    match stamps::coming(expected, stamp) {
        Arrival::Next => {
            let recorded = |p| planes::sample(inputs, stride, p, at);
            put_frame(block, count, channels, recorded);
            let next = stamps::then_expected(expected, stamp);
            Gathered {
                count: count + 1,
                at: at + 1,
                restart: false,
                expected: next,
            }
        }
        Arrival::Ahead(_) => {
            put_frame(block, count, channels, |_| 0.0);
            let next = stamps::skipped(expected);
            Gathered {
                count: count + 1,
                at,
                restart: false,
                expected: next,
            }
        }
        Arrival::Jump => Gathered {
            count,
            at,
            restart: true,
            expected: Some(stamp),
        },
        Arrival::Late => Gathered {
            count,
            at: at + 1,
            restart: false,
            expected,
        },
    }
}

// Whether the block is to be filled further.
fn goes_on(so_far: Gathered, frames: usize) -> bool
    ensures { result ≡ is_gathering_on so_far frames }
{
    if so_far.restart {
        return false;
    }
    if frames <= so_far.at {
        return false;
    }
    so_far.count < PLACES
}

// Gathers the frames as they are fed, from the recorded frame `at` on.
pub(crate) fn gather(
    expected: Option<u32>,
    at: usize,
    frames: usize,
    stamps: &[u32],
    channels: usize,
    stride: usize,
    inputs: &[f32],
    block: &mut [f32],
) -> Gathered
    requires { (at ≤ frames) × ((frames ≤ length stamps.now) × (length block.old ≡ channels * 64)) }
    ensures { Gathers (recording stamps.now channels stride inputs.now frames) channels
        expected at frames result block.new }
{
    let mut so_far = Gathered {
        count: 0,
        at,
        restart: false,
        expected,
    };
    // Kept: how many steps there are comes out as the stamps are read, so that no range or iterator counts them.
    while goes_on(so_far, frames) {
        so_far = take_one(so_far, stamps, channels, stride, inputs, block);
    }
    so_far
}
