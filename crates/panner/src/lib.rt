// Places a voice: plays one input plane to several output planes, each with the gain that a command asks for
// (document 01, item 4, from panner.rs).
//
// A command is fixed for a block: a stereo position, a surround azimuth, or a direction with an order.
// `process` plays to the planes of the command: two for stereo, the layout's channels for surround, those of
// the order for a direction. Every output is the f32 product of the sample and the narrowed gain. Its two
// halves are public, for a caller that plays one block at more than one command: `command_gains` gives what
// a command plays, and `play_part` plays some of the frames.
//
// Each takes any input. The promise of `process` (specs/Promise.antt) is one equation for the refusal, the
// sample count and the output planes, and says beside it that the gains played are those that `stereo`,
// `surround` and `harmonics` promise. A block of up to 4,096 frames is played to its last frame; a longer one
// is refused, where panner.rs stops at 4,096 and leaves the old tail.
#![tactic(auto)]

ghost use Rattle.std.specs.Prelude.{◌≡◌, ◌≤◌, min};
ghost use Rattle.planes.specs.Planes.{with_frame, with_frames};
ghost use Rattle.planes.specs.Blocks.{played};
ghost use Rattle.panner.specs.declared.Command.{Command};
ghost use Rattle.panner.specs.Blocks.{panned, narrowed_all};
ghost use Rattle.panner.specs.Halves.{panned_part, gained, CommandGainsPromise};
ghost use Rattle.panner.specs.Computed.{commanded, CommandComputed};
ghost use Rattle.panner.specs.Promise.{PannerPromise};

use refusals::Refusal;

#[derive(Clone, Copy)]
pub enum Command {
    Stereo(f64),
    Surround(f64),
    Ambisonic(harmonics::Direction, usize),
}

// What a command plays: the narrowed gains of so many planes.
#[derive(Clone, Copy)]
pub struct CommandGains {
    pub planes: usize,
    pub gains: [f32; 16],
}

// The same before the gains are narrowed.
#[derive(Clone, Copy)]
struct Commanded {
    planes: usize,
    gains: [f64; 16],
}

// A layout that has no channels, or too many, is refused, though it does not matter here.
fn stereo_gains(layout: channel::Layout, position: f64) -> Result<Commanded, Refusal>
    ensures { CommandComputed (Command.Stereo position) layout (commanded result) }
{
    channel::channel_count(layout)?;
    let stereo = stereo::calculate_stereo_gains(position)?;
    let mut gains = [0.0; 16];
    gains[0] = stereo.left;
    gains[1] = stereo.right;
    Ok(Commanded { planes: 2, gains })
}

fn surround_gains(layout: channel::Layout, azimuth: f64) -> Result<Commanded, Refusal>
    ensures { CommandComputed (Command.Surround azimuth) layout (commanded result) }
{
    let planes = channel::channel_count(layout)?;
    let gains = surround::calculate_vbap_gains(layout, azimuth)?;
    Ok(Commanded { planes, gains })
}

fn ambisonic_gains(
    layout: channel::Layout,
    direction: harmonics::Direction,
    order: usize,
) -> Result<Commanded, Refusal>
    ensures { CommandComputed (Command.Ambisonic direction order) layout (commanded result) }
{
    let planes = channel::ambisonic_channel_count(order)?;
    channel::channel_count(layout)?;
    let gains = harmonics::compute_sh_coefficients(order, direction)?;
    Ok(Commanded { planes, gains })
}

fn gains_of(command: Command, layout: channel::Layout) -> Result<Commanded, Refusal>
    ensures { CommandComputed command layout (commanded result) }
{
    match command {
        Command::Stereo(position) => stereo_gains(layout, position),
        Command::Surround(azimuth) => surround_gains(layout, azimuth),
        Command::Ambisonic(direction, order) => ambisonic_gains(layout, direction, order),
    }
}

fn narrowed(gains: [f64; 16]) -> [f32; 16]
    ensures { result ≡ narrowed_all gains }
{
    gains.map(|gain| numbers::narrow(gain))
}

// Plays one sample to a frame of the output planes.
fn pan(out: &mut [f32], stride: usize, frame: usize, planes: usize, gains: [f32; 16], x: f32)
    requires { planes ≤ 16 }
    ensures { out.new ≡ with_frame out.old stride frame (panned planes gains x) }
{
    for (p, gain) in gains[..planes].iter().enumerate() {
        planes::put_sample(out, stride, p, frame, x * gain);
    }
}

// What a command plays beside a layout.
pub fn command_gains(command: Command, layout: channel::Layout) -> Result<CommandGains, Refusal>
    ensures { CommandGainsPromise command layout (gained result) }
{
    let commanded = gains_of(command, layout)?;
    let planes = commanded.planes;
    let gains = narrowed(commanded.gains);
    Ok(CommandGains { planes, gains })
}

// Plays the frames from one to before another, to sixteen planes at most.
pub fn play_part(
    out: &mut [f32],
    stride: usize,
    from: usize,
    to: usize,
    planes: usize,
    gains: [f32; 16],
    input: &[f32],
)
    ensures { out.new ≡ with_frames out.old stride from
        (panned_part stride from to (min planes 16) gains input.now) }
{
    let few = checks::min(planes, 16);
    for n in from..to {
        pan(
            out,
            stride,
            n,
            few,
            gains,
            planes::sample(input, stride, 0, n),
        );
    }
}

// Plays a block of one input plane to the planes of a command, or refuses it.
pub fn process(
    command: Command,
    layout: channel::Layout,
    frames: usize,
    stride: usize,
    input: &[f32],
    out: &mut [f32],
) -> Result<usize, Refusal>
    ensures { PannerPromise (record { command = command; layout = layout; frames = frames; stride = stride })
        input.now out.old (played result) out.new }
{
    let played = command_gains(command, layout)?;
    if checks::is_block_unfit(input.len(), 1, out.len(), played.planes, stride, frames) {
        return Err(Refusal::Misfit);
    }
    if 4096 < frames {
        return Err(Refusal::Frames);
    }
    play_part(out, stride, 0, frames, played.planes, played.gains, input);
    Ok(frames)
}
