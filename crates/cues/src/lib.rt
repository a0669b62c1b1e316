// Finds the cue that holds at a frame, in a lent list of cues, and judges such a list (document 02, E1).
//
// A cue is a frame number and a direction: from its frame on the voice is there, up to the next cue. `holding`
// looks a frame up by halving, on the lent list itself, and also says for how many frames nothing changes, so
// that a caller looks up once a segment and not once a frame. `judged` goes through the whole list once: how
// many cues there are, whether their frames rise strictly, and whether every direction is a good one.
//
// Both take any list. Halving finds the last cue not after a frame only where the frames rise; what it finds
// in another list is promised too (specs/Promise.antt), and `script` refuses such a list.
//
// `judged` and `holding` read the list; what they compute is in the functions that they call.
#![tactic(auto)]

ghost use Rattle.std.specs.Prelude.{◌≡◌, ◌+◌, ◌^◌, ◌≤◌, ◌<◌, length, get_or};
ghost use Rattle.cues.specs.Cues.{nowhere};
ghost use Rattle.cues.specs.Computed.{rises_on, good_on, judged_on, whole_of, halved_of, left_of, held_of};
ghost use Rattle.cues.specs.Promise.{judgement_of, FindPromise};

// Where the voice is from a frame on.
#[derive(Clone, Copy)]
pub struct Cue {
    pub frame: u64,
    pub direction: harmonics::Direction,
}

// A whole cue.
fn cue_at(cues: &[Cue], i: usize) -> Cue
    requires { i < length cues.now }
    ensures { result ≡ get_or cues.now i nowhere }
{
    cues[i]
}

// How many cues were judged, the frame of the last one, whether their frames rise strictly, and whether all
// their directions are good ones. It is also what the judging goes on from, cue by cue.
#[derive(Clone, Copy)]
pub struct Judgement {
    pub seen: usize,
    pub last: u64,
    pub rising: bool,
    pub good: bool,
}

fn rises_on(seen: usize, last: u64, rising: bool, frame: u64) -> bool
    ensures { result ≡ rises_on seen last rising frame }
{
    rising && (seen == 0 || last < frame)
}

fn good_on(good: bool, direction: harmonics::Direction) -> bool
    ensures { result ≡ good_on good direction }
{
    good && !harmonics::refuses_direction(direction)
}

// One cue further.
fn judged_on(s: Judgement, cue: Cue) -> Judgement
    requires { s.seen + 1 < 2 ^ 64 }
    ensures { result ≡ judged_on s cue }
{
    let seen = s.seen;
    let frame = cue.frame;
    let direction = cue.direction;
    let rising = rises_on(seen, s.last, s.rising, frame);
    let good = good_on(s.good, direction);
    Judgement {
        seen: seen + 1,
        last: frame,
        rising: rising,
        good: good,
    }
}

// Judges every cue, whatever the list.
pub fn judged(cues: &[Cue]) -> Judgement
    ensures { result ≡ judgement_of cues.now }
{
    let mut s = Judgement {
        seen: 0,
        last: 0,
        rising: true,
        good: true,
    };
    for cue in cues {
        s = judged_on(s, *cue);
    }
    s
}

// The part of the list that is still searched and its middle, the direction of the cue before the part, where
// one stands there, and the frame of the cue behind it, the largest there is where none stands behind it.
#[derive(Clone, Copy)]
struct Search {
    lo: usize,
    mid: usize,
    hi: usize,
    direction: Option<harmonics::Direction>,
    next: u64,
}

fn whole_of(count: usize) -> Search
    ensures { result ≡ whole_of count }
{
    Search {
        lo: 0,
        mid: count / 2,
        hi: count,
        direction: None,
        next: u64::MAX,
    }
}

// The half in which the search goes on, where `cue` stands in the middle.
fn halved(s: Search, cue: Cue, frame: u64) -> Search
    requires { (s.lo ≤ s.mid) × (s.mid < s.hi) }
    ensures { result ≡ halved_of s cue frame }
{
    let mid = s.mid;
    if cue.frame <= frame {
        return Search {
            lo: mid + 1,
            mid: mid + 1 + (s.hi - (mid + 1)) / 2,
            direction: Some(cue.direction),
            ..s
        };
    }
    Search {
        mid: s.lo + (mid - s.lo) / 2,
        hi: mid,
        next: cue.frame,
        ..s
    }
}

// The direction of the cue that holds at a frame, if one does, and for how many frames from this one on nothing
// changes.
#[derive(Clone, Copy)]
pub struct Held {
    pub direction: Option<harmonics::Direction>,
    pub left: u64,
}

// The frames up to the next cue; if there is none, as many as there can be.
fn left_of(lo: usize, count: usize, next: u64, frame: u64) -> u64
    requires { frame ≤ next }
    ensures { result ≡ left_of lo count next frame }
{
    if count <= lo {
        return u64::MAX;
    }
    next - frame
}

fn held_of(s: Search, count: usize, frame: u64) -> Held
    requires { frame ≤ s.next }
    ensures { result ≡ held_of s count frame }
{
    Held {
        direction: s.direction,
        left: left_of(s.lo, count, s.next, frame),
    }
}

// Finds the last cue not after a frame, by halving.
// Kept: `partition_point` says nothing of a list that does not rise, and the promise holds of every list.
pub fn holding(cues: &[Cue], frame: u64) -> Held
    ensures { FindPromise cues.now frame result }
{
    let mut s = whole_of(cues.len());
    while s.lo < s.hi {
        s = halved(s, cue_at(cues, s.mid), frame);
    }
    held_of(s, cues.len(), frame)
}
