// The rows of a bank, out of a file and into one: where they stand, the fields of each, and before them the head
// (document 01, 'Filter bank file'; document 02, E6). All of it over the version.
ghost use Rattle.std.specs.Prelude.{◌≡◌, pos, ◌+◌, ◌*◌, ◌<◌, ◌≤◌, length, take, drop, ◌++◌};
ghost use Rattle.std.specs.Int.{w16};
ghost use Rattle.std.proofs.Common.{of_z};
ghost use Rattle.big_endian.specs.Bytes.{bytes_of};
ghost use Rattle.big_endian.specs.Fields.{float_at};
ghost use Rattle.lists.specs.Placed.{placed};
ghost use Rattle.big_endian.specs.Lists.{strided, float_bytes};
ghost use Rattle.bank_form.specs.Bank.{pairs_of};
ghost use Rattle.bank_form.specs.Version.{elevation_size, elevation_bytes, row_size, largest_file, largest_row};
ghost use Rattle.bank_form.specs.Encoding.{row_bytes, head_bytes, encode};
ghost use Rattle.lists.specs.ForAll.{ForAll};
ghost use Rattle.bank_form.specs.FitsFields.{IsI16};
ghost use Rattle.bank_form.specs.Fault.{azimuths_from, elevations_from, taps_from};

// Where row i starts in a file, and behind the last row where the file ends.
pub(crate) fn row_at(version: usize, i: usize, l: usize) -> usize
    requires { (i ≤ 8) × (l ≤ 512) }
    ensures { (result ≡ 9 + i * row_size version l) × (result ≤ 9 + largest_row * i) }
{
    9 + i * bank_form::row_size(version, l)
}

// Where the taps of row i start in a list of taps.
fn tap_at(i: usize, l: usize) -> usize
    requires { (i < 8) × (l ≤ 512) }
    ensures { (result ≡ i * (2 * l)) × (result ≤ 7168) }
{
    i * (2 * l)
}

// Fills a list of taps, which stand one after another from `at` on.
fn fill_taps(file: &[u8], at: usize, taps: &mut [f32])
    requires { at + 4 * length taps.old ≤ largest_file }
    ensures { taps.new ≡ strided (float_at file.now) 4 at (length taps.old) }
{
    for (k, tap) in taps.iter_mut().enumerate() {
        *tap = big_endian::get_f32(file, at + k * 4);
    }
}

// Fills the azimuths, the elevations and the taps of n rows into the first entries of the lists.
pub(crate) fn fill_rows(
    file: &[u8],
    version: usize,
    l: usize,
    n: usize,
    azimuths: &mut [i16],
    elevations: &mut [i16],
    taps: &mut [f32],
)
    requires { (l ≤ 512) × (n ≤ 8) × (length azimuths.old ≡ 8) × (length elevations.old ≡ 8)
        × (length taps.old ≡ 8192) }
    ensures azimuths { azimuths.new ≡ placed azimuths.old 0
        (azimuths_from file.now version l 9 n) }
    ensures elevations { elevations.new ≡ placed elevations.old 0
        (elevations_from file.now version l 9 n) }
    ensures taps { taps.new ≡ placed taps.old 0
        (taps_from file.now version l 9 n) }
{
    let pair = 2 + bank_form::elevation_size(version);
    for i in 0..n {
        let at = row_at(version, i, l);
        azimuths[i] = big_endian::get_i16(file, at);
        elevations[i] = bank_form::elevation_at(file, version, at);
        let first = tap_at(i, l);
        fill_taps(file, at + pair, &mut taps[first..first + 2 * l]);
    }
}

// Puts taps into the file, one after another from `at` on.
fn put_taps(taps: &[f32], file: &mut [u8], at: usize)
    requires { at + 4 * length taps.now ≤ length file.old }
    ensures { file.new ≡ placed file.old at (float_bytes taps.now) }
{
    for (k, tap) in taps.iter().enumerate() {
        big_endian::put_f32(file, at + 4 * k, *tap);
    }
}

// Puts an elevation at an offset; version 1 has none.
fn put_elevation(version: usize, z: i16, file: &mut [u8], at: usize)
    requires { at + elevation_size version ≤ length file.old }
    ensures { file.new ≡ placed file.old at (elevation_bytes version z) }
{
    if version == 1 {
        return;
    }
    big_endian::put_i16(file, at, z);
}

// Puts a row at an offset: its azimuth, its elevation, and its taps.
fn put_row(version: usize, azimuth: i16, elevation: i16, taps: &[f32], file: &mut [u8], at: usize)
    requires { at + (2 + elevation_size version + 4 * length taps.now) ≤ length file.old }
    ensures { file.new ≡ placed file.old at
        (bytes_of 2 (of_z w16 azimuth) ++ (elevation_bytes version elevation ++ float_bytes taps.now)) }
{
    big_endian::put_i16(file, at, azimuth);
    put_elevation(version, elevation, file, at + 2);
    put_taps(taps, file, at + 2 + bank_form::elevation_size(version));
}

// Puts the rows of a bank behind the head. That each azimuth and each elevation is one of sixteen bits is known once it
// is read, so it is told here.
fn put_rows(
    version: usize,
    azimuths: &[i16],
    elevations: &[i16],
    l: usize,
    taps: &[f32],
    file: &mut [u8],
)
    requires { (l ≤ 512) × (length azimuths.now ≤ 8) × (length elevations.now ≡ length azimuths.now)
        × (length taps.now ≡ length azimuths.now * (2 * l))
        × (9 + length azimuths.now * row_size version l ≤ length file.old) }
    ensures bytes { file.new ≡ placed file.old 9
        (row_bytes version (pairs_of azimuths.now elevations.now) l taps.now) }
    ensures azimuths { ForAll IsI16 (pos 0) azimuths.now }
    ensures elevations { ForAll IsI16 (pos 0) elevations.now }
{
    for (i, azimuth) in azimuths.iter().enumerate() {
        let at = row_at(version, i, l);
        let from = tap_at(i, l);
        put_row(
            version,
            *azimuth,
            elevations[i],
            &taps[from..from + 2 * l],
            file,
            at,
        );
    }
}

// Puts the head: the version, the length of all that follows, and the two counts.
fn put_head(file: &mut [u8], version: u64, rest: u64, rows: u64, l: u64)
    requires { 9 ≤ length file.old }
    ensures { file.new ≡ placed file.old 0 (head_bytes version rest rows l) }
{
    big_endian::put(file, 0, 1, version);
    big_endian::put(file, 1, 4, rest);
    big_endian::put(file, 5, 2, rows);
    big_endian::put(file, 7, 2, l);
}

// Puts a bank from the start on in a version, of which its file has `size` bytes.
pub(crate) fn put_bank(
    version: usize,
    azimuths: &[i16],
    elevations: &[i16],
    l: usize,
    taps: &[f32],
    file: &mut [u8],
    size: usize,
)
    requires { (l ≤ 512) × (length azimuths.now ≤ 8) × (length elevations.now ≡ length azimuths.now)
        × (length taps.now ≡ length azimuths.now * (2 * l)) × (size ≡ 9 + length azimuths.now * row_size version l)
        × (size ≤ length file.old) }
    ensures bytes { file.new ≡ placed file.old 0
        (encode version
        (record {
          azimuths = azimuths.now;
          elevations = elevations.now;
          length = l;
          taps = taps.now;
        })) }
    ensures azimuths { ForAll IsI16 (pos 0) azimuths.now }
    ensures elevations { ForAll IsI16 (pos 0) elevations.now }
{
    put_head(
        file,
        version as u64,
        (size - 5) as u64,
        azimuths.len() as u64,
        l as u64,
    );
    put_rows(version, azimuths, elevations, l, taps, file);
}
