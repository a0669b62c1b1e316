// Chooses the row of a filter bank that a speaker takes: the nearest in elevation, then in azimuth (document 01,
// 'Filter bank file', its second paragraph, and document 02, E6).
//
// It takes any input. Its promise: the row is among the first rows, none of them is nearer to the speaker,
// and each that comes before it is farther; where there is no such row to be had, the refusal. A row is nearer
// if its elevation is, or if that is as near and the shorter way round is less.
#![tactic(auto)]

ghost use Rattle.std.specs.Prelude.{◌≡◌, ◌-◌, ◌<◌, ◌≤◌, ◌%◌, min, nat_abs, ◌-ℤ◌, length};
ghost use Rattle.bank_choice.specs.Nearest.{angle_apart};
ghost use Rattle.bank_choice.specs.Choice.{choice, ChoicePromise};
ghost use Rattle.bank_choice.specs.Computed.{key, nearer, nearest_from};

use refusals::Refusal;

// The plain difference of two numbers of tenths.
fn difference(a: i16, b: i16) -> usize
    ensures { (result ≡ nat_abs (a -ℤ b)) × (result < 72000) }
{
    usize::from(a.abs_diff(b))
}

// The shorter way round of a difference.
fn shorter(d: usize) -> usize
    ensures { (result ≡ min (d % 3600) (3600 - d % 3600)) × (result ≤ 1800) }
{
    let m = d % 3600;
    m.min(3600 - m)
}

// How far two azimuths are apart.
#[tactic(auto, unfolding(crate::specs::Nearest::angle_apart))]
fn tenths_apart(a: i16, b: i16) -> usize
    ensures { (result ≡ angle_apart a b) × (result ≤ 1800) }
{
    shorter(difference(a, b))
}

// How far row j is from a speaker, as one number: a tenth of elevation counts for more than any way round,
// which is at most 1800.
#[tactic(auto, unfolding(crate::specs::Computed::key, crate::specs::Nearest::elevation_away))]
fn distance_key(
    azimuths: &[i16],
    elevations: &[i16],
    azimuth: i16,
    elevation: i16,
    j: usize,
) -> usize
    requires { (j < length azimuths.now) × (j < length elevations.now) }
    ensures { result ≡ key azimuths.now elevations.now azimuth elevation j }
{
    let height = difference(elevations[j], elevation);
    let round = tenths_apart(azimuths[j], azimuth);
    1801 * height + round
}

// Of two rows the nearer to a speaker, and the one named first where they are as near.
#[tactic(auto, unfolding(crate::specs::Computed::nearer))]
fn nearer_row(
    azimuths: &[i16],
    elevations: &[i16],
    azimuth: i16,
    elevation: i16,
    best: usize,
    j: usize,
) -> usize
    requires { (best < length azimuths.now) × (best < length elevations.now) × (j < length azimuths.now)
        × (j < length elevations.now) }
    ensures { result ≡ nearer azimuths.now elevations.now azimuth elevation best j }
{
    let there = distance_key(azimuths, elevations, azimuth, elevation, j);
    let here = distance_key(azimuths, elevations, azimuth, elevation, best);
    if there < here {
        return j;
    }
    best
}

// The nearest of the first n rows.
fn nearest(azimuths: &[i16], elevations: &[i16], n: usize, azimuth: i16, elevation: i16) -> usize
    requires { (1 ≤ n) × (n ≤ length azimuths.now) × (n ≤ length elevations.now) }
    ensures { result ≡ nearest_from azimuths.now elevations.now azimuth elevation 0 1 (n - 1) }
{
    let mut best = 0;
    for j in 1..n {
        best = nearer_row(azimuths, elevations, azimuth, elevation, best, j);
    }
    best
}

// The row that a speaker takes among the first rows of lists of 8 azimuths and 8 elevations.
pub fn nearest_row(
    azimuths: &[i16],
    elevations: &[i16],
    rows: usize,
    azimuth: i16,
    elevation: i16,
) -> Result<usize, Refusal>
    ensures { ChoicePromise azimuths.now elevations.now rows azimuth elevation (choice result) }
{
    if refusals::is_outside(rows, 8) {
        return Err(Refusal::Count);
    }
    if !refusals::is_between(azimuth, -1800, 1800) {
        return Err(Refusal::Angle);
    }
    if !refusals::is_between(elevation, -900, 900) {
        return Err(Refusal::Angle);
    }
    if azimuths.len() != 8 {
        return Err(Refusal::Misfit);
    }
    if elevations.len() != 8 {
        return Err(Refusal::Misfit);
    }
    Ok(nearest(azimuths, elevations, rows, azimuth, elevation))
}
