// Shows how the library is called: a voice at the left becomes the four planes of ambisonic order 1.
// `place` promises what the panner promises of such a block: the refusal, the count and every sample.
#![tactic(auto)]

ghost use Rattle.planes.specs.Blocks.{played};
ghost use Rattle.panner.specs.Promise.{PannerPromise};

use channel::Layout;
use harmonics::Direction;
use panner::Command;
use refusals::Refusal;
use std::io;

// Plays four samples at a direction. The planes have four samples each, one plane after another.
fn place(direction: Direction, voice: &[f32], planes: &mut [f32]) -> Result<usize, Refusal>
    ensures { PannerPromise
        (record { command = Command.Ambisonic direction 1; layout = Layout.Mono; frames = 4; stride = 4 })
        voice.now planes.old (played result) planes.new }
{
    let command = Command::Ambisonic(direction, 1);
    panner::process(command, Layout::Mono, 4, 4, voice, planes)
}

// 1 if a sample sounds, else 0.
fn sounds(sample: f32) -> u8 {
    (sample != 0.0) as u8
}

fn main(rt: HostRuntime) -> io::Result<()> {
    let left = Direction {
        azimuth: 90.0,
        elevation: 0.0,
    };
    let mut planes = [0.0f32; 16];
    let refusal = refusals::number_in(place(left, &[0.5f32; 4], &mut planes));
    let w = sounds(planes[0]);
    let y = sounds(planes[4]);
    let z = sounds(planes[8]);
    let x = sounds(planes[12]);
    println!(rt; "refusal {refusal} sounds {w} {y} {z} {x}")
}
