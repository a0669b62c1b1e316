// Reads and opens the files of the programs: a bank is read by its name; a line is read part by part; the
// ears' file is opened.
//
// What the system hands over no contract can name. So a read promises where its bytes stand and that those
// before them stay, and `read_bank` that its answer is what `bank::read` promises for the bytes of some
// file. A file that is longer than any bank is judged whole all the same: its first bytes are kept, the rest
// is counted, and `bank::read_start` tells what is wrong with it.
#![tactic(auto)]

ghost use Rattle.std.specs.Prelude.{◌≡◌, true, false, ◌+◌, ◌^◌, ◌≤◌, ◌<◌, min, max, pos, length, Some, IfOk};
ghost use Rattle.std.specs.Prelude.{MatchResult};
ghost use Rattle.io.specs.Counts.{IsPrefixLen};
ghost use Rattle.bank_form.specs.Version.{largest_file};
ghost use Rattle.bank_form.specs.FaultLaws.{bytes_that_matter};
ghost use Rattle.bank.specs.Reading.{read_answer};
ghost use Rattle.files.specs.Promise.{ReadBehind, ReadSized, Found};

use bank::BankRead;
use bank_form::{Fault, LARGEST};
use std::fs::OpenFile;
use std::io::Read;
use std::os::fd::AsRawFd;
use std::rt::Files;
use std::{fs, io, str};

// The number of standard error.
const STDERR: i32 = 2;

// Where a read that begins at `at` ends in a buffer of `size` bytes: `limit` bytes on, one at the least.
fn end_of_read(at: usize, limit: usize, size: usize) -> usize
    requires { at ≤ size }
    ensures { (at ≤ result) × (result ≤ size) × (result ≤ at + max 1 limit) × (at < size → at < result) }
{
    at + limit.max(1).min(size - at)
}

// Reads once behind the bytes that are held, which stay, and answers how many bytes now stand in the buffer; a read
// that fails has added none. Where there is no room behind them it adds none, and `limit` 0 counts as 1: a read of no
// bytes would look like the end of the file.
pub fn read_some<R: Read>(
    file: &mut R,
    held: usize,
    limit: usize,
    bytes: &mut [u8],
) -> io::Result<usize>
    ensures { MatchResult result
        (λ n. ReadBehind held limit bytes.old false n bytes.new)
        (λ _. ReadBehind held limit bytes.old true (min held (length bytes.old)) bytes.new) }
{
    let at = checks::min(held, bytes.len());
    let end = end_of_read(at, limit, bytes.len());
    let got = file.read(&mut bytes[at..end])?;
    Ok(at + got)
}

// Reads until the file ends or the list is full, and answers how many bytes came.
fn fill<R: Read>(file: &mut R, bytes: &mut [u8]) -> io::Result<usize>
    ensures { IfOk result (λ n. IsPrefixLen n bytes.new) }
{
    let mut at = 0;
    // Kept: a `for` has no count here, since each turn goes on by as many bytes as came.
    while at < bytes.len() {
        let size = read_some(file, at, usize::MAX, bytes)?;
        if size == at {
            return Ok(at);
        }
        at = size;
    }
    Ok(at)
}

// How many bytes a file has, of which so many were read: counted until it ends, or has `most`.
fn count_rest<R: Read>(file: &mut R, read: usize, most: usize) -> io::Result<usize>
    requires { most < 2 ^ 33 }
{
    let mut space = [0u8; 4096];
    let mut size = read;
    // Kept: a `for` has no count here either.
    while size < most {
        let got = file.read(&mut space)?;
        if got == 0 {
            return Ok(size);
        }
        size += got;
    }
    Ok(size)
}

// How many bytes of a file that begins with these can make a difference. A wrong version is told whatever comes after
// it; a file with a byte more than its length field says has the same fault as every longer one.
fn most_to_count(bytes: &[u8]) -> usize
    ensures { (result ≡ bytes_that_matter bytes.now) × (result < 2 ^ 33) }
{
    if !refusals::is_within(big_endian::get(bytes, 0, 1) as usize, 1, 2) {
        return 1;
    }
    let named = big_endian::get(bytes, 1, 4) as usize;
    6 + named
}

// Reads the first bytes of a file, as many as the list holds, and answers how many the file has, counted as far as that
// makes a difference.
fn read_first<R: Read>(file: &mut R, bytes: &mut [u8]) -> io::Result<usize> {
    let read = fill(file, bytes)?;
    if read < bytes.len() {
        return Ok(read);
    }
    count_rest(file, read, most_to_count(bytes))
}

// The system's names are text: one that is not UTF-8 is no file's.
fn name_of(path: &[u8]) -> io::Result<&str> {
    match str::from_utf8(path) {
        Ok(name) => Ok(name),
        Err(_) => Err(io::Error::new(io::ErrorKind::InvalidInput, "the name is not UTF-8")),
    }
}

// Opens the file of a name for reading.
pub fn open_read<R: Files>(rt: &R, path: &[u8]) -> io::Result<R::File> {
    fs::open(rt, name_of(path)?)
}

// Opens the file of a name for writing and empties it, or makes it where it is missing.
pub fn open_overwrite<R: Files>(rt: &R, path: &[u8]) -> io::Result<R::File> {
    fs::create(rt, name_of(path)?)
}

// Reads the first bytes of the file of a name, as `read_first` does.
fn read_named<R: Files>(rt: &R, path: &[u8], bytes: &mut [u8]) -> io::Result<usize> {
    let mut file = open_read(rt, path)?;
    read_first(&mut file, bytes)
}

// Reads the bank of a file of `size` bytes, whose first stand in a list that has room for the largest bank.
fn read_sized(
    bytes: &[u8],
    size: usize,
    azimuths: &mut [i16],
    elevations: &mut [i16],
    taps: &mut [f32],
) -> Result<BankRead, Fault>
    requires { length bytes.now ≡ largest_file }
    ensures { ReadSized bytes.now size azimuths.old elevations.old
        taps.old
        (record {
          answer = read_answer result;
          azimuths = azimuths.new;
          elevations = elevations.new;
          taps = taps.new;
        }) }
{
    let n = checks::min(size, bytes.len());
    bank::read_start(&bytes[..n], size, azimuths, elevations, taps)
}

// Reads the bank of a name. One that is missing, or cannot be read, counts as a file of no bytes, which breaks the
// form.
pub fn read_bank<R: Files>(
    rt: &R,
    path: &[u8],
    azimuths: &mut [i16],
    elevations: &mut [i16],
    taps: &mut [f32],
) -> Result<BankRead, Fault>
    ensures { Found azimuths.old elevations.old taps.old
        (record {
          answer = read_answer result;
          azimuths = azimuths.new;
          elevations = elevations.new;
          taps = taps.new;
        }) }
{
    let mut bytes = [0u8; LARGEST];
    let size = read_named(rt, path, &mut bytes).unwrap_or(0);
    read_sized(&bytes, size, azimuths, elevations, taps)
}

// Closes a file that was written. Rattle's own `close` tells no error, so what was written is brought to the disk
// first, which tells it: a disk that is full, for one. What keeps nothing, as a pipe or a terminal, has nothing to
// bring there.
pub fn close<F: OpenFile + Drop>(file: F) -> io::Result<()> {
    match file.sync_all() {
        Ok(()) => Ok(()),
        Err(e) if e.kind() == io::ErrorKind::InvalidInput => Ok(()),
        Err(e) if e.kind() == io::ErrorKind::Unsupported => Ok(()),
        Err(e) => Err(e),
    }
}

// Writes a line to standard error: what failed, as the caller names it, a colon and why.
pub fn fail<R: Eprint>(rt: &R, what: &[u8], why: io::Error) {
    let name = str::from_utf8(what).unwrap_or("a name that is not UTF-8");
    let _ = eprintln!(rt; "{name}: {why}");
}

// Opens the file of a name for the ears and empties it. It never has the number of standard error, which the system
// would give it where that is closed: messages would stand among the samples. Then the file is opened a second time.
pub fn open_out<R: Files>(rt: &R, path: &[u8]) -> io::Result<R::File>
where
    R::File: AsRawFd,
    ensures { IfOk result (λ file. R.File.raw_fd file ≡ Some (pos 2) → ⊥) }
{
    let first = open_overwrite(rt, path)?;
    if first.as_raw_fd() != STDERR {
        return Ok(first);
    }
    let second = open_overwrite(rt, path)?;
    if second.as_raw_fd() != STDERR {
        return Ok(second);
    }
    Err(io::Error::new(io::ErrorKind::Other, "the number of standard error"))
}
