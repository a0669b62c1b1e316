// Keeps the last L signals of each speaker, and sums them times the taps of a filter (document 01, item 9,
// from hrtf.rs).
//
// The rings stand speaker by speaker, L cells each, in one lent list. A frame's signals go into the cell at
// the desk's position, one in each ring, by `planes::mix_frame`: rings are planes whose stride is L.
// `convolve` is an ear's part of a speaker: its ring from the newest signal to the oldest, times the taps, as two
// straight runs, so that no place is a remainder. It takes any lists, and promises the ordered sum by an equation.
// Blocks are played by `hrtf`, which goes over a ring once for both ears, by the same two runs.
//
// Whatever stands in the rings is the signals of the last L frames (specs/Held.antt). The laws (proofs/) say,
// of every state: what frames give is document 01's sums over their signals and those that were held, and
// what they leave holds the newest L of these.
#![tactic(auto)]

ghost use Rattle.std.specs.Prelude.{◌≡◌, suc, min, reverse};
ghost use Rattle.formats.specs.Floats.{zero_float};
ghost use Rattle.planes.specs.Sums.{dot};
ghost use Rattle.hrtf_rings.specs.Unrolled.{unrolled};

// How many of a ring's n cells stand in its first run, from the newest signal's back to the start. Beyond the last
// cell the newest is the last.
pub fn cells_up_to(newest: usize, n: usize) -> usize
    ensures { result ≡ min (suc newest) n }
{
    // Kept: as `(newest + 1).min(n)` the sum may not fit in 64 bits; here it is formed below n alone.
    if n <= newest {
        return n;
    }
    newest + 1
}

// A straight run: its cells from the last back to the first, times the taps in order, added to a sum. The shorter
// of the two ends it.
fn run_back(cells: &[f32], taps: &[f32], sum: f64) -> f64
    ensures { result ≡ dot sum (reverse cells.now) taps.now }
{
    // Kept: an index, since of a fold over zipped iterators the edit every_second_tap is refused for its form alone.
    let n = cells.len();
    let count = checks::min(n, taps.len());
    let mut total = sum;
    for k in 0..count {
        let i = n - 1 - k;
        total = total + numbers::widen(cells[i]) * numbers::widen(taps[k]);
    }
    total
}

// An ear's part of one speaker: its ring, whose newest signal stands in the cell `newest`, back round to the
// oldest, times the taps: from the newest back to the start, then from the end back to the oldest, one sum. The
// shorter of the two ends it; beyond the last cell the newest is the last.
pub fn convolve(ring: &[f32], newest: usize, taps: &[f32]) -> f64
    ensures { result ≡ dot zero_float (unrolled (suc newest) ring.now) taps.now }
{
    let split = cells_up_to(newest, ring.len());
    let used = checks::min(split, taps.len());
    let first = run_back(&ring[..split], &taps[..used], 0.0);
    run_back(&ring[split..], &taps[used..], first)
}
