// Reads and writes the filter bank file, which holds the filters of both ears for up to eight directions
// (document 01, item 8 and 'Filter bank file'), and turns it from one version into the other (document 02, E6).
//
// `read` fills lent lists from a file of either version, `write` fills a lent buffer with the file of a bank, in
// version 2. Both take any input. Their promises: a file is accepted exactly if it is the encoding of a bank that
// keeps the form, and what is filled in is that bank; a bank is accepted exactly if it keeps the form, and what
// is filled in is its encoding; a refusal tells what is wrong and at which byte (document 02, E2), and nothing
// lent changes. What is written reads as the same bank, and what is read is written as the same bytes, of version
// 1 as those that `to_version_2` makes. `read_start` is for a file of which a caller keeps the start alone,
// because it is longer than any bank. `to_version_2` and `to_version_1` fill a lent output with the same bank in
// the other version, the second only where every elevation is 0, and exactly then.
#![tactic(auto)]

ghost use Rattle.std.specs.Prelude.{◌≡◌, Ok, ◌&&◌, eqb, ◌+◌, ◌*◌, ◌^◌, ◌<◌, ◌≤◌, length, take};
ghost use Rattle.bank_form.specs.Version.{row_size, largest_file};
ghost use Rattle.bank_form.specs.Fault.{found, rows_in_of, length_in, bank_in, raised_from};
ghost use Rattle.bank_form.specs.WriteFault.{counts_fault};
ghost use Rattle.bank_form.specs.FaultLaws.{suffices};
ghost use Rattle.bank.specs.Reading.{read_answer, read_bank, ReadStartPromise, ReadPromise};
ghost use Rattle.bank.specs.Writing.{written_answer, WritePromise};
ghost use Rattle.bank.specs.Conversion.{raised_for, converted_bank, ConversionPromise, ToVersion1Promise};
ghost use Rattle.bank.specs.Conversion.{ToVersion2Promise};

use bank_form::{Fault, LARGEST};
use refusals::Refusal;

mod rows;

// What reading answers: the rows and L.
#[derive(Clone, Copy)]
pub struct BankRead {
    pub rows: usize,
    pub length: usize,
}

// A lent length that doesn't fit is refused by this. It has no place in a file.
const MISFIT: Fault = Fault {
    refusal: Refusal::Misfit,
    offset: 0,
};

// Whether the lists that reading is lent have their lengths.
fn lists_fit(azimuths: usize, elevations: usize, taps: usize) -> bool
    ensures { result ≡ (eqb azimuths 8 && eqb elevations 8 && eqb taps 8192) }
{
    if azimuths != 8 {
        return false;
    }
    if elevations != 8 {
        return false;
    }
    taps == 8192
}

// Whether so many bytes are all of a file of `size` bytes, or at least as many of its first as the largest bank has.
fn is_enough(have: usize, size: usize) -> bool
    ensures { result ≡ suffices have size }
{
    if have == size {
        return true;
    }
    if have < LARGEST {
        return false;
    }
    have <= size
}

// Fills the lists with the bank of a file whose counts keep the form, and answers these.
fn fill_bank(
    file: &[u8],
    azimuths: &mut [i16],
    elevations: &mut [i16],
    taps: &mut [f32],
) -> BankRead
    requires { (rows_in_of file.now ≤ 8) × (length_in file.now ≤ 512) × (length azimuths.old ≡ 8)
        × (length elevations.old ≡ 8) × (length taps.old ≡ 8192) }
    ensures { record {
      answer = read_answer (Ok result);
      azimuths = azimuths.new;
      elevations = elevations.new;
      taps = taps.new;
    } ≡ read_bank (bank_in file.now) azimuths.old elevations.old
        taps.old }
{
    let version = big_endian::get(file, 0, 1) as usize;
    let rows = big_endian::get(file, 5, 2) as usize;
    let length = big_endian::get(file, 7, 2) as usize;
    rows::fill_rows(file, version, length, rows, azimuths, elevations, taps);
    BankRead { rows, length }
}

// Reads a file of `size` bytes that begins with these into lists of 8 azimuths, 8 elevations and 8,192 taps,
// once all of it is known to keep the form. The start is the whole file, or as many of its first bytes as the
// largest bank has, or more: a longer file is no bank, and its start and its size tell what is wrong with it.
// Any other start, and one longer than `size`, is a misfit.
pub fn read_start(
    start: &[u8],
    size: usize,
    azimuths: &mut [i16],
    elevations: &mut [i16],
    taps: &mut [f32],
) -> Result<BankRead, Fault>
    ensures { ReadStartPromise start.now size azimuths.old elevations.old
        taps.old
        (record {
          answer = read_answer result;
          azimuths = azimuths.new;
          elevations = elevations.new;
          taps = taps.new;
        }) }
{
    if !lists_fit(azimuths.len(), elevations.len(), taps.len()) {
        return Err(MISFIT);
    }
    if !is_enough(start.len(), size) {
        return Err(MISFIT);
    }
    bank_check::check_start(start, size)?;
    Ok(fill_bank(start, azimuths, elevations, taps))
}

// Reads a file into lists of 8 azimuths, 8 elevations and 8,192 taps, once all of it is known to keep the form.
pub fn read(
    file: &[u8],
    azimuths: &mut [i16],
    elevations: &mut [i16],
    taps: &mut [f32],
) -> Result<BankRead, Fault>
    ensures { ReadPromise file.now azimuths.old elevations.old
        taps.old
        (record {
          answer = read_answer result;
          azimuths = azimuths.new;
          elevations = elevations.new;
          taps = taps.new;
        }) }
{
    read_start(file, file.len(), azimuths, elevations, taps)
}

// Whether the lengths that writing is lent fit: an elevation for each row, 2 x rows x L taps, and a buffer of
// the length of the file, in version 2.
fn lengths_fit(rows: usize, elevations: usize, l: usize, taps: usize, file: usize) -> bool
    requires { (rows * 2 < 2 ^ 63) × (taps * 4 < 2 ^ 63) }
    ensures { result ≡ (eqb elevations rows && eqb taps (2 * rows * l) && eqb file (9 + rows * row_size 2 l)) }
{
    if elevations != rows {
        return false;
    }
    if !checks::is_product(taps, 2 * rows, l) {
        return false;
    }
    if file < 9 {
        return false;
    }
    let pair = 2 + bank_form::elevation_size(2);
    file - 9 == rows * pair + taps * 4
}

// Makes the file of a bank in `made`, checks it as any file is, and copies it if it keeps the form.
fn write_checked(
    azimuths: &[i16],
    elevations: &[i16],
    l: usize,
    taps: &[f32],
    file: &mut [u8],
    made: &mut [u8],
) -> Result<usize, Fault>
    requires { (l ≤ 512) × (length azimuths.now ≤ 8) × (length elevations.now ≡ length azimuths.now)
        × (length taps.now ≡ length azimuths.now * (2 * l))
        × (length file.old ≡ 9 + length azimuths.now * row_size 2 l) × (length made.old ≡ largest_file) }
    ensures { WritePromise (record {
      azimuths = azimuths.now;
      elevations = elevations.now;
      length = l;
      taps = taps.now;
    }) file.old (record { answer = written_answer result; file = file.new }) }
{
    let size = file.len();
    rows::put_bank(2, azimuths, elevations, l, taps, made, size);
    bank_check::check_file(&made[..size])?;
    file.copy_from_slice(&made[..size]);
    Ok(size)
}

// What is wrong with a row count and an L, judged as numbers: they need not fit the bytes that they would be
// written in.
fn check_counts(rows: usize, l: usize) -> Result<(), Fault>
    ensures { found result ≡ counts_fault rows l }
{
    if !refusals::is_within(rows, 1, 8) {
        return Err(Fault {
            refusal: Refusal::RowCount,
            offset: 5,
        });
    }
    if !refusals::is_within(l, 1, 512) {
        return Err(Fault {
            refusal: Refusal::TapCount,
            offset: 7,
        });
    }
    Ok(())
}

// Writes the file of a bank in version 2, with an azimuth and an elevation for each row, into a buffer of its
// length. The file is made beside the buffer, so that a bank which breaks the form changes nothing.
pub fn write(
    azimuths: &[i16],
    elevations: &[i16],
    length: usize,
    taps: &[f32],
    file: &mut [u8],
) -> Result<usize, Fault>
    ensures { WritePromise (record {
      azimuths = azimuths.now;
      elevations = elevations.now;
      length = length;
      taps = taps.now;
    }) file.old (record { answer = written_answer result; file = file.new }) }
{
    if !lengths_fit(
        azimuths.len(),
        elevations.len(),
        length,
        taps.len(),
        file.len(),
    ) {
        return Err(MISFIT);
    }
    check_counts(azimuths.len(), length)?;
    let mut made = [0u8; LARGEST];
    write_checked(azimuths, elevations, length, taps, file, &mut made)
}

// The first elevation that is not 0, told where a file of version 2 has it.
fn check_level(elevations: &[i16], l: usize) -> Result<(), Fault>
    requires { (l ≤ 512) × (length elevations.now ≤ 8) }
    ensures { found result ≡ raised_from l 9 elevations.now }
{
    let row = bank_form::row_size(2, l);
    for (i, elevation) in elevations.iter().enumerate() {
        if *elevation != 0 {
            return Err(Fault {
                refusal: Refusal::Raised,
                offset: 9 + i * row + 2,
            });
        }
    }
    Ok(())
}

// What is wrong with elevations in a file of a version: version 1 has no place for them.
fn check_elevations(version: usize, elevations: &[i16], l: usize) -> Result<(), Fault>
    requires { (l ≤ 512) × (length elevations.now ≤ 8) }
    ensures { found result ≡ raised_for version l elevations.now }
{
    if version == 1 {
        return check_level(elevations, l);
    }
    Ok(())
}

// Puts a bank that keeps the form into an output of the length that its file has in a version.
fn convert_bank(
    version: usize,
    azimuths: &[i16],
    elevations: &[i16],
    l: usize,
    taps: &[f32],
    out: &mut [u8],
) -> Result<usize, Fault>
    requires { (l ≤ 512) × (length azimuths.now ≤ 8) × (length elevations.now ≡ length azimuths.now)
        × (length taps.now ≡ length azimuths.now * (2 * l)) }
    ensures { record { answer = written_answer result; file = out.new } ≡ converted_bank version
        (record {
          azimuths = azimuths.now;
          elevations = elevations.now;
          length = l;
          taps = taps.now;
        }) out.old }
{
    check_elevations(version, elevations, l)?;
    let size = rows::row_at(version, azimuths.len(), l);
    if out.len() != size {
        return Err(MISFIT);
    }
    rows::put_bank(version, azimuths, elevations, l, taps, out, size);
    Ok(size)
}

// Turns a file of one version into another.
fn convert(file: &[u8], from: usize, to: usize, out: &mut [u8]) -> Result<usize, Fault>
    ensures { ConversionPromise from to file.now out.old
        (record { answer = written_answer result; file = out.new }) }
{
    bank_check::check_version(file, from)?;
    let mut azimuths = [0i16; 8];
    let mut elevations = [0i16; 8];
    let mut taps = [0.0f32; 8192];
    let read = fill_bank(file, &mut azimuths, &mut elevations, &mut taps);
    let n = read.rows;
    let l = read.length;
    convert_bank(
        to,
        &azimuths[..n],
        &elevations[..n],
        l,
        &taps[..2 * n * l],
        out,
    )
}

// Turns a file of version 1 into one of version 2, which has the elevation 0 for each row.
pub fn to_version_2(file: &[u8], out: &mut [u8]) -> Result<usize, Fault>
    ensures { ToVersion2Promise file.now out.old
        (record { answer = written_answer result; file = out.new }) }
{
    convert(file, 1, 2, out)
}

// Turns a file of version 2 back into one of version 1. That can be had only if every elevation is 0.
pub fn to_version_1(file: &[u8], out: &mut [u8]) -> Result<usize, Fault>
    ensures { ToVersion1Promise file.now out.old
        (record { answer = written_answer result; file = out.new }) }
{
    convert(file, 2, 1, out)
}
