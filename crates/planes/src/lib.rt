// Reads, writes and sums the samples of lent blocks, for the panner, the decoder and the convolver (document
// 01, 'What must change shape' and 'Sums').
//
// Planes with a stride in one list, read and written a sample or a frame at a time; the ordered sum of a
// frame's samples times weights, narrowed; and the words for what a refused and an accepted block give back.
// Panner, decoder and convolver are made of these. Every public function takes any input and promises its
// answer by an equation: what lies outside a list reads as NaN, and writing there changes nothing.
#![tactic(auto)]

ghost use Rattle.std.specs.Prelude.{◌≡◌, ◌+◌, ◌*◌, ◌≤◌, min, length, get_or};
ghost use Rattle.std.specs.Float.{nan};
ghost use Rattle.planes.specs.Planes.{sample_at, frame_at, with_sample, FramePut};
ghost use Rattle.planes.specs.Sums.{mixed, mixed_all};

// `step` places after `at` in a list of `size`, or its end where that comes first: the sum may not fit
// and is then not formed.
fn onward(at: usize, step: usize, size: usize) -> usize
    requires { at ≤ size }
    ensures { result ≡ min (at + step) size }
{
    at + step.min(size - at)
}

// Where a sample stands, or the list's end where it lies beyond.
fn place(size: usize, stride: usize, plane: usize, frame: usize) -> usize
    ensures { result ≡ min (plane * stride + frame) size }
{
    // Kept: with a product that saturates in place of the quotient, silence takes half as long again, or more: the
    // quotient is the same for all planes of a frame, and is formed once for them.
    if size <= frame {
        return size;
    }
    if stride == 0 {
        return frame;
    }
    if (size - 1 - frame) / stride < plane {
        return size;
    }
    plane * stride + frame
}

// What stands at a place, widened.
fn value(xs: &[f32], at: usize) -> f64
    ensures { result ≡ get_or xs.now at nan }
{
    if at < xs.len() {
        return numbers::widen(xs[at]);
    }
    0.0 / 0.0
}

// The sample of one frame in one plane.
pub fn sample(xs: &[f32], stride: usize, plane: usize, frame: usize) -> f32
    ensures { result ≡ sample_at xs.now stride plane frame }
{
    let at = place(xs.len(), stride, plane, frame);
    if at < xs.len() {
        return xs[at];
    }
    0.0 / 0.0
}

// Puts the sample of one frame in one plane.
pub fn put_sample(xs: &mut [f32], stride: usize, plane: usize, frame: usize, x: f32)
    ensures { xs.new ≡ with_sample xs.old stride plane frame x }
{
    let to = place(xs.len(), stride, plane, frame);
    if to < xs.len() {
        xs[to] = x;
    }
}

// One output of a frame: the f64 sum from 0.0, channels rising, of sample times weight, narrowed.
fn mix(weights: &[f64], inputs: &[f32], stride: usize, frame: usize) -> f32
    ensures { result ≡ mixed weights.now
        (frame_at inputs.now stride (length weights.now) frame) }
{
    let mut sum = 0.0;
    let mut at = onward(0, frame, inputs.len());
    for weight in weights {
        sum = sum + value(inputs, at) * *weight;
        at = onward(at, stride, inputs.len());
    }
    numbers::narrow(sum)
}

// Every output of a frame, put as a frame of the output planes, and whether one of them is NaN or infinite.
pub fn mix_frame(
    out: &mut [f32],
    out_stride: usize,
    out_frame: usize,
    outputs: usize,
    weights: &[f64],
    channels: usize,
    inputs: &[f32],
    stride: usize,
    frame: usize,
) -> bool
    ensures { FramePut out.old out_stride out_frame
        (mixed_all outputs channels weights.now (frame_at inputs.now stride channels frame))
        out.new result }
{
    let mut damaged = false;
    for o in 0..outputs {
        let from = place(weights.len(), channels, o, 0);
        let to = onward(from, channels, weights.len());
        let x = mix(&weights[from..to], inputs, stride, frame);
        put_sample(out, out_stride, o, out_frame, x);
        if !checks::is_finite(numbers::widen(x)) {
            damaged = true;
        }
    }
    damaged
}
