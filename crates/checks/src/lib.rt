// Tests what an operation is lent before it plays: that lengths fit, and that numbers are finite (document
// 01, 'Refusal numbers' 5 and 7).
//
// Whether a length is a product, or planes fit, also where the product would not fit in 64 bits; and whether
// a number, or one of a list, is NaN or infinite. And the smaller of two counts. The tests of a range are in
// `refusals`. Every function takes any input and promises its answer by an equation.
//
// Weights are f64 and taps f32: one function looks through either, by the number that each element is.
//
// Its laws (proofs/Checks.antt) go through a chain of tests one by one, and through a loop that stops at the
// first that holds.
#![tactic(auto)]

ghost use Rattle.std.specs.Prelude.{◌≡◌, ◌*◌, Float, map, min, eqb};
ghost use Rattle.std.specs.Float.Ieee.Scale.{finite};
ghost use Rattle.checks.specs.Finite.{has_nonfinite};
ghost use Rattle.checks.specs.Lengths.{unfit, block_unfit};

// Whether x is neither a NaN nor an infinity.
pub fn is_finite(x: f64) -> bool
    ensures { result ≡ finite x }
{
    x.is_finite()
}

// A float of either width: the weights are f64, and the taps f32.
pub trait Sample: Copy {
    ghost number: { Self → Float };

    // The same number as an f64, which has every f32.
    fn widened(self) -> f64
        ensures { result ≡ number self };
}

impl Sample for f64 {
    ghost number = { λ x. x };

    fn widened(self) -> f64 {
        self
    }
}

impl Sample for f32 {
    ghost number = { λ x. x };

    fn widened(self) -> f64 {
        numbers::widen(self)
    }
}

// Whether one of the weights or taps is NaN or infinite.
pub fn has_nonfinite<T: Sample>(list: &[T]) -> bool
    ensures { result ≡ has_nonfinite (map T.number list.now) }
{
    // Kept: a loop, since of `any` the edits every_second_tap and every_second_weight are refused for their form alone.
    for x in list {
        if !is_finite(x.widened()) {
            return true;
        }
    }
    false
}

// Whether n is a times b, which may not fit and is not formed.
pub fn is_product(n: usize, a: usize, b: usize) -> bool
    ensures { result ≡ eqb n (a * b) }
{
    if a == 0 {
        return n == 0;
    }
    if n % a != 0 {
        return false;
    }
    n / a == b
}

// Whether a list of `size` samples does not fit as planes of `stride` places, of which `frames` are used.
pub fn is_unfit(size: usize, planes: usize, stride: usize, frames: usize) -> bool
    ensures { result ≡ unfit size planes stride frames }
{
    if stride < frames {
        return true;
    }
    !is_product(size, planes, stride)
}

// Whether the input planes of a block do not fit, or its output planes: one stride serves both.
pub fn is_block_unfit(
    inputs: usize,
    channels: usize,
    out: usize,
    outputs: usize,
    stride: usize,
    frames: usize,
) -> bool
    ensures { result ≡ block_unfit inputs channels out outputs stride frames }
{
    if is_unfit(inputs, channels, stride, frames) {
        return true;
    }
    is_unfit(out, outputs, stride, frames)
}

// The smaller of two counts.
// Kept: the edits the_larger_one and the_second_always, and min_unique, which docs/TRUST.md names, hold it.
pub fn min(a: usize, b: usize) -> usize
    ensures { result ≡ min a b }
{
    a.min(b)
}
