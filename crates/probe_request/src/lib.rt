// Reads the arguments of a request to the test program `probe`: numbers, layouts and lists from a place on
// (docs/PROBE.md).
//
// It also says how much room there is for the lists that a request lends. Test code, and promised by
// equations all the same: a number that does not lie inside the arguments is 0, and a list that does not is
// left as it was. Every function takes any input.
#![tactic(auto)]

ghost use Rattle.std.specs.Prelude.{◌≡◌, ◌+◌, ◌*◌, ℕ, List, length};
ghost use Rattle.big_endian.specs.Fields.{field_at, signed_at, float_at, double_at};
ghost use Rattle.probe_request.specs.Requests.{layout_of, eight_at, lent_by, place_in, word_at, list_at};

use channel::Layout;

// More than any call takes, so that a list which is too long can be lent.
pub const MOST_AZIMUTHS: usize = 16;

pub const MOST_WEIGHTS: usize = 300;

// For samples, for taps and for stamps.
pub const MOST_SAMPLES: usize = 8200;

pub const MOST_CELLS: usize = 4100;

// The number in `count` bytes.
pub fn number(args: &[u8], at: usize, count: usize) -> usize
    ensures { result ≡ field_at args.now at count }
{
    big_endian::get(args, at, count) as usize
}

// How many places of a list are lent: as many as the number in `count` bytes says, and no more than there are.
pub fn lent(args: &[u8], at: usize, count: usize, most: usize) -> usize
    ensures { result ≡ lent_by args.now at count most }
{
    checks::min(number(args, at, count), most)
}

// A layout: 0 Mono, 1 Stereo, 2 and 3 the surround ones, and any other number a Custom of n.
pub fn layout(which: usize, n: usize) -> Layout
    ensures { result ≡ layout_of which n }
{
    match which {
        0 => Layout::Mono,
        1 => Layout::Stereo,
        2 => Layout::Surround51,
        3 => Layout::Surround71,
        _ => Layout::Custom(n),
    }
}

// Eight numbers of eight bytes each. From behind the arguments on all are 0, and no place is formed.
pub fn eight(args: &[u8], at: usize) -> [usize; 8]
    ensures { result ≡ eight_at args.now at }
{
    if args.len() < at {
        return [0usize; 8];
    }
    [
        number(args, at, 8),
        number(args, at + 8, 8),
        number(args, at + 16, 8),
        number(args, at + 24, 8),
        number(args, at + 32, 8),
        number(args, at + 40, 8),
        number(args, at + 48, 8),
        number(args, at + 56, 8),
    ]
}

// The place behind `count` fields of `width` bytes from `at` on, and one from which on nothing is read where
// they do not lie inside the arguments: so lists that stand one behind the other are found, whatever their
// lengths.
pub fn behind(args: &[u8], at: usize, width: usize, count: usize) -> usize
    ensures { result ≡ place_in (length args.now) (at + width * count) }
{
    if !big_endian::has_room(args.len(), at, width, count) {
        return usize::MAX;
    }
    at + width * count
}

// What a request holds lists of: each entry stands there in `WIDTH` bytes.
pub trait Field: Copy {
    const WIDTH: usize;

    ghost WIDTH: { ℕ };

    ghost read: { List ℕ → ℕ → Self };

    fn get_from(args: &[u8], at: usize) -> Self
        ensures { result ≡ read args.now at };
}

impl Field for i16 {
    const WIDTH: usize = 2;

    ghost WIDTH = { 2 };

    ghost read = { signed_at };

    fn get_from(args: &[u8], at: usize) -> i16 {
        big_endian::get_i16(args, at)
    }
}

impl Field for f32 {
    const WIDTH: usize = 4;

    ghost WIDTH = { 4 };

    ghost read = { float_at };

    fn get_from(args: &[u8], at: usize) -> f32 {
        big_endian::get_f32(args, at)
    }
}

impl Field for f64 {
    const WIDTH: usize = 8;

    ghost WIDTH = { 8 };

    ghost read = { double_at };

    fn get_from(args: &[u8], at: usize) -> f64 {
        big_endian::get_f64(args, at)
    }
}

impl Field for u32 {
    const WIDTH: usize = 4;

    ghost WIDTH = { 4 };

    ghost read = { word_at };

    fn get_from(args: &[u8], at: usize) -> u32 {
        big_endian::get(args, at, 4) as u32
    }
}

// Fills a list with what stands in the arguments from `at` on.
pub fn get_list<T: Field>(args: &[u8], at: usize, list: &mut [T])
    ensures { list.new ≡ list_at T.read T.WIDTH args.now at list.old }
{
    if !big_endian::has_room(args.len(), at, T::WIDTH, list.len()) {
        return;
    }
    let mut place = at;
    for entry in list.iter_mut() {
        *entry = T::get_from(args, place);
        place += T::WIDTH;
    }
}
