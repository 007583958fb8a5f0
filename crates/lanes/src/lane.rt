// A port's lane: the data of its readings, in their order.
ghost use Rattle.std.specs.Prelude.{◌≡◌, ◌≤◌, not, ◌++◌, length, drop};
ghost use Rattle.lanes.specs.Readings.{good, is_of};
ghost use Rattle.lanes.specs.Lanes.{lane, untagged, errors, size_answer, fill_answer, filled, untagged_answer, Joins, AddsUp};

use crate::reading::{data_of, is_aux_error, port_of};
use ps2::refusal::Refusal;

// A port is a number here, since one above 3 is to be refused.
const LAST_PORT: u8 = 3;

pub const MOST_READINGS: usize = 32_768;

// The readings that belong to no port: how many, and how many of them are AUX bytes with Error set.
#[derive(Clone, Copy, PartialEq, Eq, Debug)]
pub struct Untagged {
    pub total: usize,
    pub errors: usize,
}

fn is_of(reading: u16, port: u8) -> bool
    ensures { result ≡ is_of port reading }
{
    port_of(reading) == Some(port)
}

// By recursion, as the project asks.
#[tactic(auto, using(crate::proofs::Laws::size_first, crate::proofs::Laws::lane_short))]
fn count(readings: &[u16], port: u8) -> usize
    ensures { result ≡ length (lane port readings.now) }
{
    match readings {
        [] => 0,
        [first, rest @ ..] => count(rest, port) + is_of(*first, port) as usize,
    }
}

// The size of a port's lane. (Readings and port stay two parameters: a struct of both would be made for one call.)
pub fn lane_size(readings: &[u16], port: u8) -> Result<usize, Refusal>
    ensures { result ≡ size_answer readings.now port }
{
    if port > LAST_PORT {
        return Err(Refusal::NoSuchLine);
    }
    if readings.len() > MOST_READINGS {
        return Err(Refusal::TooManyReadings);
    }
    Ok(count(readings, port))
}

fn copy_lane(readings: &[u16], port: u8, out: &mut [u8])
    requires { length (lane port readings.now) ≤ length out.old }
    ensures { out.new ≡ lane port readings.now ++ drop (length (lane port readings.now)) out.old }
{
    for (place, reading) in readings.iter().filter(|r| is_of(**r, port)).enumerate() {
        out[place] = data_of(*reading);
    }
}

// Writes a port's lane into the buffer's first bytes, leaves the rest, and answers its size.
pub fn fill_lane(readings: &[u16], port: u8, out: &mut [u8]) -> Result<usize, Refusal>
    ensures value { result ≡ fill_answer readings.now port (length out.old) }
    ensures after { out.new ≡ filled result (lane port readings.now) out.old }
{
    let size = lane_size(readings, port)?;
    if out.len() < size {
        return Err(Refusal::BufferTooShort);
    }
    copy_lane(readings, port, out);
    Ok(size)
}

fn is_untagged(reading: u16) -> bool
    ensures { result ≡ not (good reading) }
{
    port_of(reading).is_none()
}

// Sums of ones, without a branch: `filter` and `count` took up to 3.4 times as long.
#[tactic(auto, using(crate::proofs::Laws::one_or_none), unfolding(crate::specs::Lanes::untagged, crate::specs::Lanes::errors))]
fn tally(readings: &[u16]) -> Untagged
    ensures total { result.total ≡ untagged readings.now }
    ensures errors { result.errors ≡ errors readings.now }
{
    Untagged {
        total: readings.iter().map(|r| usize::from(is_untagged(*r))).sum(),
        errors: readings.iter().map(|r| usize::from(is_aux_error(*r))).sum(),
    }
}

// The readings that no lane has: their number and the sizes of the lanes add up.
#[tactic(auto, using(crate::proofs::Laws::joins, crate::proofs::Laws::adds_up))]
pub fn count_untagged(readings: &[u16]) -> Result<Untagged, Refusal>
    ensures value { result ≡ untagged_answer readings.now }
    ensures adds_up { AddsUp readings.now }
    ensures joins { Joins }
{
    if readings.len() > MOST_READINGS {
        return Err(Refusal::TooManyReadings);
    }
    Ok(tally(readings))
}
