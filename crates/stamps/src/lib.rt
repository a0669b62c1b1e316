// Tells what a recorded frame is by its stamp, and what a recording comes to by its stamps alone.
//
// Document 02, E5, of the line recorder: "each with a 32-bit stamp that rolls over to zero. A frame is
// next, ahead or late by the wrapped difference from the expected stamp: 0 is next, 1 to 2^31 - 1 is ahead, the
// rest is late." The stamp that is expected, none before the first frame, goes in and comes back by value, so that
// a recording may be cut anywhere.
// `plan` tells from the stamps alone how many frames come out of a recording, before anything is played.
//
// The definitions over the recorded list (specs/Arrivals, specs/Counts, specs/Events) have no wrapping function in
// them. Every public function takes any input.
#![tactic(auto)]

ghost use Rattle.std.specs.Prelude.{◌≡◌, ◌-◌, ◌^◌, ◌<◌, ◌≤◌};
ghost use Rattle.stamps.specs.Arrivals.{following, coming_by, Comes, then_of, skipped_of};
ghost use Rattle.stamps.specs.Counts.{plan_of, silent_one};
ghost use Rattle.stamps.specs.Computed.{share_of, plan_on};

// What a frame is: next; ahead, with so many missing before it (1 to 4,096); ahead by more; or late.
#[derive(Clone, Copy)]
pub enum Arrival {
    Next,
    Ahead(usize),
    Jump,
    Late,
}

// What a frame is whose stamp is so far ahead of the expected one.
fn coming_by(difference: u32) -> Arrival
    ensures { result ≡ coming_by difference }
{
    if difference == 0 {
        return Arrival::Next;
    }
    if difference <= 4096 {
        return Arrival::Ahead(difference as usize);
    }
    if difference < 2147483648 {
        return Arrival::Jump;
    }
    Arrival::Late
}

// What a frame with this stamp is.
pub fn coming(expected: Option<u32>, stamp: u32) -> Arrival
    ensures { Comes expected stamp result }
{
    match expected {
        None => Arrival::Next,
        Some(e) => coming_by(std::num::wrapping_sub_u32(stamp, e)),
    }
}

// The stamp after this one.
fn one_on(stamp: u32) -> u32
    ensures { result ≡ following stamp }
{
    std::num::wrapping_add_u32(stamp, 1)
}

// What is expected after a frame with this stamp; where it is late, what was.
pub fn then_expected(expected: Option<u32>, stamp: u32) -> Option<u32>
    ensures { result ≡ then_of expected stamp }
{
    match coming(expected, stamp) {
        Arrival::Next | Arrival::Ahead(_) | Arrival::Jump => Some(one_on(stamp)),
        Arrival::Late => expected,
    }
}

// What is expected once the missing frame with the expected stamp has been put in.
pub fn skipped(expected: Option<u32>) -> Option<u32>
    ensures { result ≡ skipped_of expected }
{
    expected.map(one_on)
}

// What a recording comes to: how many frames come out, how many recorded frames are late, how many silent frames are
// put in, how many resets there are, and what is expected then.
#[derive(Clone, Copy)]
pub struct Planned {
    pub out: usize,
    pub late: usize,
    pub silent: usize,
    pub resets: usize,
    pub expected: Option<u32>,
}

// What one frame adds to the counts.
#[derive(Clone, Copy)]
struct Share {
    out: usize,
    late: usize,
    silent: usize,
    resets: usize,
}

// A frame of each kind.
fn share_of(what: Arrival) -> Share
    requires { silent_one what ≤ 4096 }
    ensures { result ≡ share_of what }
{
    match what {
        Arrival::Next => Share {
            out: 1,
            late: 0,
            silent: 0,
            resets: 0,
        },
        Arrival::Ahead(missing) => Share {
            out: missing + 1,
            late: 0,
            silent: missing,
            resets: 0,
        },
        Arrival::Jump => Share {
            out: 1,
            late: 0,
            silent: 0,
            resets: 1,
        },
        Arrival::Late => Share {
            out: 0,
            late: 1,
            silent: 0,
            resets: 0,
        },
    }
}

// One frame more, if the room suffices: what is left of the room is compared, and no count of frames that come out
// is formed that passes it.
fn plan_on(plan: Planned, stamp: u32, room: usize) -> Option<Planned>
    requires { (plan.out ≤ room)
        × ((plan.silent ≤ plan.out) × ((plan.late < 2 ^ 64 - 1) × (plan.resets < 2 ^ 64 - 1))) }
    ensures { result ≡ plan_on plan stamp room }
{
    let expected = plan.expected;
    let out = plan.out;
    let what = coming(expected, stamp);
    let share = share_of(what);
    if room - out < share.out {
        return None;
    }
    let next = then_expected(expected, stamp);
    Some(Planned {
        out: out + share.out,
        late: plan.late + share.late,
        silent: plan.silent + share.silent,
        resets: plan.resets + share.resets,
        expected: next,
    })
}

// What a recording with these stamps comes to; nothing where the frames that come out do not fit in the room.
pub fn plan(expected: Option<u32>, stamps: &[u32], room: usize) -> Option<Planned>
    ensures { result ≡ plan_of expected stamps.now room }
{
    let mut so_far = Planned {
        out: 0,
        late: 0,
        silent: 0,
        resets: 0,
        expected,
    };
    for stamp in stamps {
        so_far = plan_on(so_far, *stamp, room)?;
    }
    Some(so_far)
}
