// Both ears' parts of one speaker, in one pass over its ring: each signal is read once, and goes into two sums, each in
// its own order. The ring is worked through as two straight runs, so that no place in it is a remainder. A tap needs no
// test for a NaN, since a block with one is refused (7) before it is played; a signal may be anything, and a NaN ends
// the run.
ghost use Rattle.std.specs.Prelude.{◌≡◌, reverse, suc};
ghost use Rattle.hrtf_rings.specs.Unrolled.{unrolled};
ghost use Rattle.hrtf.specs.Computed.{TapsFor, dot_each, no_sums, PartsInside, parts_by};

use hrtf_checks::ConvolverShape;

// A sum for each ear.
#[derive(Clone, Copy)]
pub(crate) struct EarSums {
    pub(crate) left: f64,
    pub(crate) right: f64,
}

// A straight run: its cells from the last back to the first, times each ear's taps in order, added to that ear's sum.
fn run_back(cells: &[f32], left: &[f32], right: &[f32], sums: EarSums) -> EarSums
    requires { TapsFor cells.now left.now × TapsFor cells.now right.now }
    ensures { result ≡ dot_each sums (reverse cells.now) left.now right.now }
{
    // Kept: `hrtf_rings`' run for one ear, called twice, would read and widen each signal twice and not end at a NaN.
    // Kept: an index, since zips of cells and both ears' taps would ask three ends at each step of the hottest loop.
    let n = cells.len();
    let mut to_left = sums.left;
    let mut to_right = sums.right;
    for k in 0..n {
        let i = n - 1 - k;
        let cell = cells[i];
        if cell != cell {
            // A NaN alone differs from itself, and both sums are one from here on.
            return EarSums {
                left: 0.0 / 0.0,
                right: 0.0 / 0.0,
            };
        }
        let signal = cell as f64;
        to_left = to_left + signal * (left[k] as f64);
        to_right = to_right + signal * (right[k] as f64);
    }
    EarSums {
        left: to_left,
        right: to_right,
    }
}

// The ring from the newest signal back round to the oldest, times each ear's taps: from the newest back to the start,
// then from the end back to the oldest, the sums going on.
fn convolve_both(ring: &[f32], newest: usize, left: &[f32], right: &[f32]) -> EarSums
    requires { TapsFor ring.now left.now × TapsFor ring.now right.now }
    ensures { result ≡ dot_each no_sums (unrolled (suc newest) ring.now) left.now
        right.now }
{
    let split = hrtf_rings::cells_up_to(newest, ring.len());
    let none = EarSums {
        left: 0.0,
        right: 0.0,
    };
    let first = run_back(&ring[..split], &left[..split], &right[..split], none);
    run_back(&ring[split..], &left[split..], &right[split..], first)
}

// One speaker's part of each ear's sum, the rings being just written at the position. Each ear's taps are handed on as
// the part of the bank in which they stand.
pub(crate) fn of_speaker(
    shape: ConvolverShape,
    position: usize,
    speaker: usize,
    row: usize,
    taps: &[f32],
    rings: &[f32],
) -> EarSums
    requires { PartsInside shape speaker row taps.now rings.now }
    ensures { result ≡ parts_by shape (suc position) speaker row taps.now rings.now }
{
    let length = shape.length;
    let ring_from = speaker * length;
    let ring_to = ring_from + length;
    let left_from = row * 2 * length;
    let right_from = left_from + length;
    let right_to = right_from + length;
    convolve_both(
        &rings[ring_from..ring_to],
        position,
        &taps[left_from..right_from],
        &taps[right_from..right_to],
    )
}
