// Says what a filter bank file is: which bank keeps the form, and which bytes it has (document 01, item 8 and
// 'Filter bank file').
//
// Definitions and laws over both versions of the file (document 02, E6), and what reader and writer share: the
// largest file, the sizes of a row and of an elevation, and the elevation of a row. specs/Bank.antt has what a
// bank is and when it keeps the form, specs/Version.antt what hangs on the version, specs/Encoding.antt a bank's
// bytes, and specs/File.antt what a bank file is; specs/Fault.antt the walk over a file, field by field, that
// finds the first which breaks the form, with its offset, and specs/WriteFault.antt the same of a bank that
// is to be written (document 02, E2). The laws say that what is written and read is the same bank, and what
// is read and written the same bytes (proofs/RoundTrip.antt), that the walk finds nothing exactly if the
// bytes are those of a bank that keeps the form (proofs/Exact.antt), and what the first fault depends on
// (specs/FaultLaws.antt).
#![tactic(auto)]

ghost use Rattle.std.specs.Prelude.{◌≡◌, ◌≤◌, min};
ghost use Rattle.bank_form.specs.Version.{elevation_size, elevation_at, row_size, largest_row};

use refusals::Refusal;

// The first field that breaks the form: the refusal that tells which, and the offset of its first byte; of `Cut`, the
// file's size.
#[derive(Clone, Copy)]
pub struct Fault {
    pub refusal: Refusal,
    pub offset: usize,
}

// The bytes of the largest bank, which has 8 rows of 512 taps for each ear, with elevations.
pub const LARGEST: usize = 32809;

// The most taps of a filter.
const MOST_TAPS: usize = 512;

// How many bytes an elevation has: version 1 has none.
pub fn elevation_size(version: usize) -> usize
    ensures { (result ≡ elevation_size version) × (result ≤ 2) }
{
    if version == 1 {
        return 0;
    }
    2
}

// How many bytes a row of l taps for each ear has: an azimuth, an elevation, and the taps. It takes any l,
// and 8 l would overflow: so one above 512, which no row has, counts as that.
pub fn row_size(version: usize, l: usize) -> usize
    ensures { (result ≡ row_size version (min l 512)) × (result ≤ largest_row) }
{
    2 + elevation_size(version) + 8 * l.min(MOST_TAPS)
}

// The elevation of the row at an offset. Version 1 has none, which is 0; one that does not lie in the list reads as 0.
pub fn elevation_at(s: &[u8], version: usize, at: usize) -> i16
    ensures { result ≡ elevation_at version s.now at }
{
    if version == 1 {
        return 0;
    }
    if s.len() <= at {
        return 0;
    }
    big_endian::get_i16(s, at + 2)
}
