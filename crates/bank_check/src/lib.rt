// Finds the first fault of a filter bank file, in either version: what breaks the form, and at which byte (document
// 02, E2 and E6).
//
// It goes field by field, in byte order, up to the first that breaks the form, whose refusal and offset are
// the answer. It takes any bytes. `check_file` has the whole file, and promises the first fault of it; there is
// none exactly if the bytes are those of a bank that keeps the form. `check_start` has the start of a file and
// its size: as many bytes as the largest bank has, and the size, tell the fault of every file they were taken
// from. `check_version` is for a file that has to be of one version, before it is turned into the other.
#![tactic(auto)]

ghost use Rattle.std.specs.Prelude.{◌≡◌, not, ◌+◌, ◌-◌, ◌*◌, ◌≤◌};
ghost use Rattle.bank_form.specs.Bank.{differ};
ghost use Rattle.bank_form.specs.Version.{largest_file, largest_row};
ghost use Rattle.bank_form.specs.Fault.{pair_in, field, head_field, head_fault, taps_fault, is_new, elevation_fault};
ghost use Rattle.bank_form.specs.Fault.{found, row_fault, rows_fault};
ghost use Rattle.refusals.specs.Numbers.{number_of};
ghost use Rattle.bank_check.specs.Checked.{StartCheckPromise, CheckPromise, VersionCheckPromise};

use bank_form::Fault;
use refusals::Refusal;

// The fault of a field at an offset, in a file of so many bytes: it has to end in the file, and be good.
#[tactic(auto, unfolding(bank_form::specs::Fault::field))]
fn check_field(
    size: usize,
    at: usize,
    count: usize,
    refusal: Refusal,
    good: bool,
) -> Result<(), Fault>
    requires { at + count ≤ largest_file }
    ensures { found result ≡ field size at count (number_of refusal) good }
{
    if size < at + count {
        return Err(Fault {
            refusal: Refusal::Cut,
            offset: size,
        });
    }
    if !good {
        return Err(Fault {
            refusal,
            offset: at,
        });
    }
    Ok(())
}

// The fault of a field of the head, whose value has to be from low to high.
#[tactic(auto, unfolding(bank_form::specs::Fault::head_field))]
fn check_head_field(
    size: usize,
    s: &[u8],
    at: usize,
    count: usize,
    refusal: Refusal,
    low: usize,
    high: usize,
) -> Result<(), Fault>
    requires { at + count ≤ 9 }
    ensures { found result ≡ head_field size s.now at count (number_of refusal) low high }
{
    let value = big_endian::get(s, at, count) as usize;
    let good = refusals::is_within(value, low, high);
    check_field(size, at, count, refusal, good)
}

// The first fault of the head.
fn check_head(size: usize, s: &[u8]) -> Result<(), Fault>
    ensures { found result ≡ head_fault size s.now }
{
    check_head_field(size, s, 0, 1, Refusal::Version, 1, 2)?;
    let rest = size.saturating_sub(5);
    check_head_field(size, s, 1, 4, Refusal::FileLength, rest, rest)?;
    check_head_field(size, s, 5, 2, Refusal::RowCount, 1, 8)?;
    check_head_field(size, s, 7, 2, Refusal::TapCount, 1, 512)
}

// The first fault among n taps from `at` on.
fn check_taps(size: usize, s: &[u8], at: usize, n: usize) -> Result<(), Fault>
    requires { at + 4 * n ≤ largest_file }
    ensures { found result ≡ taps_fault size s.now at n }
{
    for k in 0..n {
        let tap_at = at + 4 * k;
        let tap = numbers::widen(big_endian::get_f32(s, tap_at));
        check_field(size, tap_at, 4, Refusal::Tap, checks::is_finite(tap))?;
    }
    Ok(())
}

// Whether the row at an offset has this azimuth and this elevation.
fn is_pair(s: &[u8], version: usize, at: usize, azimuth: i16, elevation: i16) -> bool
    ensures { result ≡ not (differ (pair_in version s.now at)
        (record { azimuth = azimuth; elevation = elevation })) }
{
    if big_endian::get_i16(s, at) != azimuth {
        return false;
    }
    if bank_form::elevation_at(s, version, at) != elevation {
        return false;
    }
    true
}

// Whether none of the first i rows has this azimuth and this elevation.
fn is_new(s: &[u8], version: usize, l: usize, i: usize, azimuth: i16, elevation: i16) -> bool
    requires { (l ≤ 512) × (i ≤ 8) }
    ensures { result ≡ is_new s.now version l (record { azimuth = azimuth; elevation = elevation }) 9 i }
{
    let row = bank_form::row_size(version, l);
    for k in 0..i {
        let at = 9 + k * row;
        if is_pair(s, version, at, azimuth, elevation) {
            return false;
        }
    }
    true
}

// The fault of the elevation of the row at an offset; version 1 has none.
fn check_elevation(size: usize, s: &[u8], version: usize, at: usize) -> Result<(), Fault>
    requires { at + 4 ≤ largest_file }
    ensures { found result ≡ elevation_fault size s.now version at }
{
    if version == 1 {
        return Ok(());
    }
    let good = refusals::is_between(big_endian::get_i16(s, at + 2), -900, 900);
    check_field(size, at + 2, 2, Refusal::Elevation, good)
}

// The first fault of the row at an offset, with i rows before it.
fn check_row(
    size: usize,
    s: &[u8],
    version: usize,
    l: usize,
    i: usize,
    at: usize,
) -> Result<(), Fault>
    requires { (l ≤ 512) × (i ≤ 8) × (at + largest_row ≤ largest_file) }
    ensures { found result ≡ row_fault size s.now version l i at }
{
    let azimuth = big_endian::get_i16(s, at);
    check_field(
        size,
        at,
        2,
        Refusal::Row,
        refusals::is_between(azimuth, -1799, 1800),
    )?;
    check_elevation(size, s, version, at)?;
    let elevation = bank_form::elevation_at(s, version, at);
    let pair_at = at + bank_form::elevation_size(version);
    if !is_new(s, version, l, i, azimuth, elevation) {
        return Err(Fault {
            refusal: Refusal::Row,
            offset: pair_at,
        });
    }
    check_taps(size, s, pair_at + 2, 2 * l)
}

// The first fault of n rows, and of what comes after them.
fn check_rows(size: usize, s: &[u8], version: usize, l: usize, n: usize) -> Result<(), Fault>
    requires { (l ≤ 512) × (n ≤ 8) }
    ensures { found result ≡ rows_fault size s.now version l 0 9 n }
{
    let row = bank_form::row_size(version, l);
    for i in 0..n {
        check_row(size, s, version, l, i, 9 + i * row)?;
    }
    let at = 9 + n * row;
    if size == at {
        return Ok(());
    }
    Err(Fault {
        refusal: Refusal::FileLength,
        offset: 1,
    })
}

// The first fault of a file of `size` bytes that begins with these, if they are enough of it: all, or as many as the
// largest bank has. A field that they do not have reads as 0.
pub fn check_start(start: &[u8], size: usize) -> Result<(), Fault>
    ensures { StartCheckPromise start.now size (found result) }
{
    check_head(size, start)?;
    let version = big_endian::get(start, 0, 1) as usize;
    let rows = big_endian::get(start, 5, 2) as usize;
    let length = big_endian::get(start, 7, 2) as usize;
    check_rows(size, start, version, length, rows)
}

// The first fault of a file.
pub fn check_file(file: &[u8]) -> Result<(), Fault>
    ensures { CheckPromise file.now (found result) }
{
    check_start(file, file.len())
}

// The first fault of a file that has to be of one version, for which every other is wrong.
pub fn check_version(file: &[u8], version: usize) -> Result<(), Fault>
    ensures { VersionCheckPromise version file.now (found result) }
{
    check_head_field(file.len(), file, 0, 1, Refusal::Version, version, version)?;
    check_file(file)
}
