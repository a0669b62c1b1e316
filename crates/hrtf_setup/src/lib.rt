// Sets up the convolver for a surround layout or an ambisonic order: the weights of its speakers, and the
// bank row of each (document 01, items 7 and 9, from hrtf.rs; document 02, E6).
//
// `new_surround` and `new_ambisonic` put the weights into a lent list, and the bank row of each speaker, the
// nearest to its angle at elevation 0, into a list of eight. A surround weight is 1.0 at its own channel and
// 0.0 elsewhere; the LFE takes the row for 0 degrees. The weights of the eight virtual speakers are the
// weighted coefficients of their positions.
//
// Both take any input. Their promises (specs/Promise.antt) are one equation for the answer and both lists,
// and beside it: each speaker's row is the one that documents 01 and 02 name, each weight is its speaker's for
// its channel, and a weighted coefficient is within 2^-34 of its formula.
#![tactic(auto)]

ghost use Rattle.std.specs.Prelude.{◌≡◌, ◌*◌, ◌/◌, ◌%◌, ◌≤◌, ◌<◌, length, get_or};
ghost use Rattle.std.specs.Float.{nan};
ghost use Rattle.lists.specs.Tables.{tab};
ghost use Rattle.virtual_speaker.specs.Promise as Weighing;
ghost use Rattle.hrtf_setup.specs.Speakers.{tenths_at, rows_of, one_if, weight_of, weight_at};
ghost use Rattle.hrtf_setup.specs.Arrangement.{setup_answer, later_refusal, arranged_by};
ghost use Rattle.hrtf_setup.specs.Promise.{NewSurroundPromise, NewAmbisonicPromise};

use channel::Layout;
use harmonics::Direction;
use refusals::Refusal;

// How many speakers and channels a set-up has.
#[derive(Clone, Copy)]
pub struct Arranged {
    pub speakers: usize,
    pub channels: usize,
}

// Whose speakers: those of a layout, or the eight virtual ones of an order.
#[derive(Clone, Copy)]
enum Speakers {
    Of(Layout),
    Virtual(usize),
}

// Where a speaker stands, in whole tenths of a degree.
fn tenths(whose: Speakers, s: usize) -> i16
    ensures { result ≡ tenths_at whose s }
{
    match whose {
        Speakers::Of(layout) => channel::speaker_tenths(layout, s).unwrap_or(0) as i16,
        Speakers::Virtual(_) => channel::position_tenths(s).unwrap_or(0) as i16,
    }
}

// Puts the bank row of each of the speakers; what stands beyond them stays.
fn choose_rows(
    row_of: &mut [usize; 8],
    whose: Speakers,
    speakers: usize,
    azimuths: &[i16],
    elevations: &[i16],
    rows: usize,
)
    requires { speakers ≤ 8 }
    ensures { row_of.new ≡ rows_of whose speakers azimuths.now elevations.now rows
        row_of.old }
{
    for (s, row) in row_of[..speakers].iter_mut().enumerate() {
        *row = bank_choice::nearest_row(azimuths, elevations, rows, tenths(whose, s), 0).unwrap_or(
            0,
        );
    }
}

// Where what is no speaker counts as standing.
const FRONT: Direction = Direction {
    azimuth: 0.0,
    elevation: 0.0,
};

fn own_channel(s: usize, channel: usize) -> f64
    ensures { result ≡ one_if s channel }
{
    if s != channel {
        return 0.0;
    }
    1.0
}

// A channel's weighted coefficient at the position of virtual speaker s; NaN beyond the sixteen.
fn coefficient(order: usize, s: usize, channel: usize) -> f64
    ensures { result ≡ get_or (Weighing.outcome order (Weighing.position_of s)).weights channel nan }
{
    let direction = virtual_speaker::foa_position(s).unwrap_or(FRONT);
    let weights = virtual_speaker::compute_sh_coefficients_max_re(order, direction);
    let weights = weights.unwrap_or([0.0; 16]);
    if channel < 16 {
        return weights[channel];
    }
    0.0 / 0.0
}

// Speaker s's weight for a channel.
fn weight(whose: Speakers, s: usize, channel: usize) -> f64
    ensures { result ≡ weight_of whose s channel }
{
    match whose {
        Speakers::Of(_) => own_channel(s, channel),
        Speakers::Virtual(order) => coefficient(order, s, channel),
    }
}

// Puts the weights: at place i that of channel i % n for speaker i / n.
fn put_weights(weights: &mut [f64], whose: Speakers, n: usize)
    requires { 0 < n }
    ensures { weights.new ≡ tab 0 (length weights.old) (weight_at whose n) }
{
    for (i, place) in weights.iter_mut().enumerate() {
        *place = weight(whose, i / n, i % n);
    }
}

// What both set-ups do once it is known whose speakers there are, and of how many channels.
fn arrange(
    whose: Speakers,
    speakers: usize,
    channels: usize,
    azimuths: &[i16],
    elevations: &[i16],
    rows: usize,
    weights: &mut [f64],
    row_of: &mut [usize; 8],
) -> Result<Arranged, Refusal>
    requires { (speakers ≤ 8) × (0 < channels) × (channels ≤ 16) }
    ensures { record { answer = setup_answer result; weights = weights.new; rows = row_of.new }
        ≡ arranged_by (later_refusal (speakers * channels) azimuths.now elevations.now rows
        weights.old) whose speakers channels azimuths.now elevations.now rows
        weights.old row_of.old }
{
    if refusals::is_outside(rows, 8) {
        return Err(Refusal::Count);
    }
    if azimuths.len() != 8 {
        return Err(Refusal::Misfit);
    }
    if elevations.len() != 8 {
        return Err(Refusal::Misfit);
    }
    if !checks::is_product(weights.len(), speakers, channels) {
        return Err(Refusal::Misfit);
    }
    put_weights(weights, whose, channels);
    choose_rows(row_of, whose, speakers, azimuths, elevations, rows);
    Ok(Arranged { speakers, channels })
}

// The weights and the bank rows of a surround layout's speakers.
pub fn new_surround(
    layout: Layout,
    azimuths: &[i16],
    elevations: &[i16],
    rows: usize,
    weights: &mut [f64],
    row_of: &mut [usize; 8],
) -> Result<Arranged, Refusal>
    ensures { NewSurroundPromise layout azimuths.now elevations.now rows
        weights.old
        row_of.old
        (record { answer = setup_answer result; weights = weights.new; rows = row_of.new }) }
{
    if !channel::is_surround(layout) {
        return Err(Refusal::Count);
    }
    let n = channel::channel_count(layout).unwrap();
    arrange(
        Speakers::Of(layout),
        n,
        n,
        azimuths,
        elevations,
        rows,
        weights,
        row_of,
    )
}

// The weights and the bank rows of the eight virtual speakers, for an ambisonic order.
pub fn new_ambisonic(
    order: usize,
    azimuths: &[i16],
    elevations: &[i16],
    rows: usize,
    weights: &mut [f64],
    row_of: &mut [usize; 8],
) -> Result<Arranged, Refusal>
    ensures { NewAmbisonicPromise order azimuths.now elevations.now rows
        weights.old
        row_of.old
        (record { answer = setup_answer result; weights = weights.new; rows = row_of.new }) }
{
    let n = channel::ambisonic_channel_count(order)?;
    arrange(
        Speakers::Virtual(order),
        8,
        n,
        azimuths,
        elevations,
        rows,
        weights,
        row_of,
    )
}
