// Says which layouts and ambisonic orders there are, how many channels each has, and at which angle each
// speaker stands (document 01, item 2, from channel.rs).
//
// There are five layouts and three orders. Every angle comes from one table: the panner, the decoder, the
// virtual speakers and the choice of filters all read it here, in degrees as an f64 or in whole tenths of a
// degree. What the table does not have is refused with 2; the speakers of a Custom layout are computed, by
// `decoder_matrix`. One test of an order serves every crate that is given one.
//
// Every function takes any input, and its answer is a definition of it (specs/Layouts.antt and
// specs/Orders.antt, which say document 01).
#![tactic(auto)]

ghost use Rattle.std.specs.Prelude.{◌≡◌};
ghost use Rattle.channel.specs.Layouts.{count_told, angle_told, tenths_told, channels_of, layout_channels, surround};
ghost use Rattle.channel.specs.Layouts.{low_frequency, speakers, entry_at};
ghost use Rattle.channel.specs.Layouts.{azimuth_answer, tenths_answer, position_azimuth_answer, position_tenths_answer};
ghost use Rattle.channel.specs.Orders.{refuses_order, counted_order};

use refusals::Refusal;

#[derive(Clone, Copy)]
pub enum Layout {
    Mono,
    Stereo,
    Surround51,
    Surround71,
    Custom(usize),
}

// How many channels a layout would have.
fn channels(layout: Layout) -> usize
    ensures { result ≡ channels_of layout }
{
    match layout {
        Layout::Mono => 1,
        Layout::Stereo => 2,
        Layout::Surround51 => 6,
        Layout::Surround71 => 8,
        Layout::Custom(n) => n,
    }
}

// How many channels a layout has; 2 for a Custom of 0 or above 16.
pub fn channel_count(layout: Layout) -> Result<usize, Refusal>
    ensures { count_told result ≡ layout_channels layout }
{
    let n = channels(layout);
    if refusals::is_outside(n, 16) {
        return Err(Refusal::Count);
    }
    Ok(n)
}

// Whether an ambisonic order is not 1, 2 or 3.
pub fn refuses_order(order: usize) -> bool
    ensures { result ≡ refuses_order order }
{
    refusals::is_outside(order, 3)
}

// How many channels an ambisonic order has; 1 for what is no order.
pub fn ambisonic_channel_count(order: usize) -> Result<usize, Refusal>
    ensures { count_told result ≡ counted_order order }
{
    if refuses_order(order) {
        return Err(Refusal::Order);
    }
    Ok((order + 1) * (order + 1))
}

// Whether the surround panner offers the layout.
pub fn is_surround(layout: Layout) -> bool
    ensures { result ≡ surround layout }
{
    match layout {
        Layout::Surround51 => true,
        Layout::Surround71 => true,
        Layout::Mono => false,
        Layout::Stereo => false,
        Layout::Custom(_) => false,
    }
}

// Whether a channel of the layout is the LFE, which points nowhere.
pub fn is_low_frequency(layout: Layout, channel: usize) -> bool
    ensures { result ≡ low_frequency layout channel }
{
    if is_surround(layout) {
        return channel == 3;
    }
    false
}

const MONO: [i32; 1] = [0];

const STEREO: [i32; 2] = [30, -30];

const SURROUND_51: [i32; 6] = [30, -30, 0, 0, 110, -110];

const SURROUND_71: [i32; 8] = [30, -30, 0, 0, 90, -90, 150, -150];

const POSITIONS: [i32; 8] = [0, 45, 90, 135, 180, -135, -90, -45];

// An entry of a table, in whole degrees, if it has so many.
fn look_up(table: &[i32], i: usize) -> Option<i32>
    ensures { result ≡ entry_at table.now i }
{
    table.get(i).copied()
}

// The speaker of a channel. Those of a Custom layout stand in no table: `decoder_matrix` computes them.
fn speaker(layout: Layout, channel: usize) -> Option<i32>
    ensures { result ≡ entry_at (speakers layout) channel }
{
    match layout {
        Layout::Mono => look_up(&MONO, channel),
        Layout::Stereo => look_up(&STEREO, channel),
        Layout::Surround51 => look_up(&SURROUND_51, channel),
        Layout::Surround71 => look_up(&SURROUND_71, channel),
        Layout::Custom(_) => None,
    }
}

// Where the speaker of a channel stands, in degrees; 2 for a channel that the layout does not have, and for
// those of a Custom layout.
pub fn speaker_azimuth(layout: Layout, channel: usize) -> Result<f64, Refusal>
    ensures { angle_told result ≡ azimuth_answer layout channel }
{
    let degrees = speaker(layout, channel).ok_or(Refusal::Count)?;
    Ok(degrees as f64)
}

// The same in whole tenths.
pub fn speaker_tenths(layout: Layout, channel: usize) -> Result<i32, Refusal>
    ensures { tenths_told result ≡ tenths_answer layout channel }
{
    let degrees = speaker(layout, channel).ok_or(Refusal::Count)?;
    Ok(degrees * 10)
}

// Where virtual speaker i stands, in degrees; 2 beyond the eight.
pub fn position_azimuth(i: usize) -> Result<f64, Refusal>
    ensures { angle_told result ≡ position_azimuth_answer i }
{
    let degrees = look_up(&POSITIONS, i).ok_or(Refusal::Count)?;
    Ok(degrees as f64)
}

// The same in whole tenths.
pub fn position_tenths(i: usize) -> Result<i32, Refusal>
    ensures { tenths_told result ≡ position_tenths_answer i }
{
    let degrees = look_up(&POSITIONS, i).ok_or(Refusal::Count)?;
    Ok(degrees * 10)
}
