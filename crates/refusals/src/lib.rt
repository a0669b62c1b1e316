// Says which refusal number an operation gives, and tests whether a number lies in a range (document 01,
// 'Refusal numbers').
//
// Which number is given is a definition that every promise cites, with the laws by which a proof goes through
// the tests. Each operation makes its own tests, in the order that its list names; the tests of a range,
// which nearly all of them make, stand here, take any numbers and promise their answer by an equation.
#![tactic(auto)]

ghost use Rattle.std.specs.Prelude.{◌≡◌};
ghost use Rattle.refusals.specs.Ranges.{within, between};
ghost use Rattle.refusals.specs.Refusals.{outside};
ghost use Rattle.refusals.specs.Numbers.{number_of, number_in};

// Why an operation refuses: each has its number in document 01 or 02.
#[derive(Clone, Copy, Debug, PartialEq, Eq)]
pub enum Refusal {
    // 1: an ambisonic order that is not 1, 2 or 3.
    Order,
    // 2: a layout that the operation does not offer, or a count that is out of its range.
    Count,
    // 3: an angle or a position that is NaN, infinite or out of its range.
    Angle,
    // 4: a filter length L of 0 or above 512.
    FilterLength,
    // 5: a lent length that does not fit.
    Misfit,
    // 6: more than 4,096 frames.
    Frames,
    // 7: a weight or a tap that is NaN or infinite.
    NotFinite,
    // 8: a ring position or frames to go that are not below L.
    Desk,
    // 9: a line that ends inside a frame.
    PartFrame,
    // 10: the root of a number that has none.
    Rootless,
    // 11: cues whose frames do not rise.
    CueOrder,
    // 12: more than 256 cues.
    CueCount,
    // 13: the version of a bank file.
    Version,
    // 14: the length field of a bank file.
    FileLength,
    // 15: the row count of a bank.
    RowCount,
    // 16: the filter length of a bank.
    TapCount,
    // 17: an azimuth that is out of its range, or a pair that is there already.
    Row,
    // 18: a tap of a bank that is NaN or infinite.
    Tap,
    // 19: a bank file that ends inside a field.
    Cut,
    // 20: an elevation that is out of its range.
    Elevation,
    // 21: an elevation that version 1 has no place for.
    Raised,
}

impl Refusal {
    // The number of document 01 or 02.
    pub fn number(self) -> u8
        ensures { result ≡ number_of self }
    {
        match self {
            Refusal::Order => 1,
            Refusal::Count => 2,
            Refusal::Angle => 3,
            Refusal::FilterLength => 4,
            Refusal::Misfit => 5,
            Refusal::Frames => 6,
            Refusal::NotFinite => 7,
            Refusal::Desk => 8,
            Refusal::PartFrame => 9,
            Refusal::Rootless => 10,
            Refusal::CueOrder => 11,
            Refusal::CueCount => 12,
            Refusal::Version => 13,
            Refusal::FileLength => 14,
            Refusal::RowCount => 15,
            Refusal::TapCount => 16,
            Refusal::Row => 17,
            Refusal::Tap => 18,
            Refusal::Cut => 19,
            Refusal::Elevation => 20,
            Refusal::Raised => 21,
        }
    }
}

// The number of the refusal in an answer; 0 where it is accepted.
pub fn number_in<T: Copy>(answer: Result<T, Refusal>) -> u8
    ensures { result ≡ number_in answer }
{
    match answer {
        Ok(_) => 0,
        Err(refusal) => refusal.number(),
    }
}

// Whether a number is low..high.
// Kept: one function over the number type would be std's `contains` itself; the promises are two, over ℕ and over ℤ,
// which is_within_unique and is_between_unique and the edits of unsigned and of signed ends hold.
pub fn is_within(n: usize, low: usize, high: usize) -> bool
    ensures { result ≡ within low high n }
{
    (low..=high).contains(&n)
}

// Whether a signed number is low..high.
pub fn is_between(z: i16, low: i16, high: i16) -> bool
    ensures { result ≡ between low high z }
{
    (low..=high).contains(&z)
}

// Whether a count is not 1..top.
pub fn is_outside(n: usize, top: usize) -> bool
    ensures { result ≡ outside n top }
{
    !is_within(n, 1, top)
}
