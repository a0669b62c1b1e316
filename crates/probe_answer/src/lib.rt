// Puts together an answer of the test program `probe`, one part behind the other (docs/PROBE.md).
//
// Test code, and promised by equations all the same: an answer grows by the bytes of each part. A part that
// has no room is left out, and the place behind it is behind every list, so that nothing that follows it is
// put either. Every function takes any input.
#![tactic(auto)]

ghost use Rattle.std.specs.Prelude.{◌≡◌, ◌≤◌, ℕ};
ghost use Rattle.std.specs.Int.{w16};
ghost use Rattle.std.proofs.Common.{of_z, rules};
ghost use Rattle.lists.specs.Prelude.{binary32, binary64, to_bits};
ghost use Rattle.big_endian.specs.Fields.{with_field};
ghost use Rattle.big_endian.specs.Lists.{field_bytes};
ghost use Rattle.probe_answer.specs.Answers.{draft, ◌then◌, then_field, refusal_and_doubles, played};

// Where the next part of an answer goes once one had no room: behind every list.
const NOWHERE: usize = 0xffff_ffff_ffff_ffff;

// Each of these puts the next part of an answer, which goes to `at`, and answers the place behind it: here a number
// in `count` bytes.
pub fn put(n: u64, count: usize, out: &mut [u8], at: usize) -> usize
    ensures { draft result out.new ≡ then_field (draft at out.old) count n }
{
    if 8 < count {
        return NOWHERE;
    }
    if !big_endian::has_room(out.len(), at, 1, count) {
        return NOWHERE;
    }
    big_endian::put(out, at, count, n);
    at + count
}

pub fn put_bytes(list: &[u8], out: &mut [u8], at: usize) -> usize
    ensures { draft result out.new ≡ draft at out.old then list.now }
{
    if !big_endian::has_room(out.len(), at, 1, list.len()) {
        return NOWHERE;
    }
    let end = at + list.len();
    out[at..end].copy_from_slice(list);
    end
}

// What an answer holds lists of: each element stands there in `WIDTH` bytes.
pub trait Field {
    const WIDTH: usize;

    ghost WIDTH: { ℕ };

    ghost bits: { Self → ℕ };

    fn put_at(&self, out: &mut [u8], at: usize)
        ensures { out.new ≡ with_field out.old at WIDTH (bits self.now) };

    ghost narrow: { WIDTH ≤ 8 };
}

impl Field for i16 {
    const WIDTH: usize = 2;

    ghost WIDTH = { 2 };

    ghost bits = { of_z w16 };

    ghost narrow = { Prim.search rules };

    #[tactic(auto, unfolding(big_endian::specs::Fields::with_signed))]
    fn put_at(&self, out: &mut [u8], at: usize) {
        big_endian::put_i16(out, at, *self);
    }
}

impl Field for f32 {
    const WIDTH: usize = 4;

    ghost WIDTH = { 4 };

    ghost bits = { to_bits binary32 };

    ghost narrow = { Prim.search rules };

    #[tactic(auto, unfolding(big_endian::specs::Fields::with_float))]
    fn put_at(&self, out: &mut [u8], at: usize) {
        big_endian::put_f32(out, at, *self);
    }
}

impl Field for f64 {
    const WIDTH: usize = 8;

    ghost WIDTH = { 8 };

    ghost bits = { to_bits binary64 };

    ghost narrow = { Prim.search rules };

    #[tactic(auto, unfolding(big_endian::specs::Fields::with_double))]
    fn put_at(&self, out: &mut [u8], at: usize) {
        big_endian::put_f64(out, at, *self);
    }
}

impl Field for usize {
    const WIDTH: usize = 8;

    ghost WIDTH = { 8 };

    ghost bits = { λ n. n };

    ghost narrow = { Prim.search rules };

    fn put_at(&self, out: &mut [u8], at: usize) {
        big_endian::put(out, at, 8, *self as u64);
    }
}

// Puts the elements of a list, one behind the other.
pub fn put_list<T: Field>(list: &[T], out: &mut [u8], at: usize) -> usize
    ensures { draft result out.new ≡ draft at out.old then field_bytes T.WIDTH T.bits list.now }
{
    if !big_endian::has_room(out.len(), at, T::WIDTH, list.len()) {
        return NOWHERE;
    }
    let mut place = at;
    for element in list {
        element.put_at(out, place);
        place += T::WIDTH;
    }
    place
}

// Puts what answers of an f64 or more are: a refusal, and the numbers behind it.
pub fn put_refusal_and_f64s(refusal: u8, list: &[f64], out: &mut [u8]) -> usize
    ensures { draft result out.new ≡ refusal_and_doubles refusal list.now out.old }
{
    let a = put(refusal as u64, 1, out, 0);
    put_list(list, out, a)
}

// Puts what answers of a block are: a refusal, a count of frames, and samples as they stand.
pub fn put_played(refusal: u8, samples: usize, list: &[f32], out: &mut [u8]) -> usize
    ensures { draft result out.new ≡ played refusal samples list.now out.old }
{
    let a = put(refusal as u64, 1, out, 0);
    let b = put(samples as u64, 8, out, a);
    put_list(list, out, b)
}
