// Recorded readings, taken apart by port.
ghost use Rattle.std.specs.Prelude.{◌≡◌, ◌≤◌, ◌++◌, map, length, IfOk, string_bytes, MatchResult, OnOk};
ghost use Rattle.lanes.specs.Lanes.{lane};
ghost use Rattle.report.specs.Demuxed.{reading_of, lane_text, untagged_text, Done, Undone};

use crate::failure::Failure;
use lanes::lane::{Untagged, count_untagged, fill_lane, lane_size};
use std::alloc::{AllocError, Global};
use text::HexBytes;

// Ports are numbers, as they are printed and as lanes take them.
const PORTS: u8 = 4;

fn readings_of(heap: Global, pairs: &[[u8; 2]]) -> Result<Vec<u16>, AllocError>
    ensures { IfOk result (λ v. v.items ≡ map reading_of pairs.now) }
{
    pairs
        .iter()
        .map(|pair| u16::from_be_bytes(*pair))
        .collect(heap)
}

fn lane_of(heap: Global, readings: &[u16], port: u8) -> Result<Vec<u8>, Failure>
    requires few { length readings.now ≤ 32768 }
    requires line { port ≤ 3 }
    ensures { MatchResult result (λ v. v.items ≡ lane port readings.now) (λ f. f ≡ Failure.OutOfMemory) }
{
    let size = lane_size(readings, port)?;
    let mut bytes = vec![in heap; 0u8; size]?;
    fill_lane(readings, port, bytes.as_mut_slice())?;
    Ok(bytes)
}

fn write_lane(text: &mut String, port: u8, bytes: &[u8]) -> Result<(), AllocError>
    ensures { OnOk result (string_bytes text.new ≡ string_bytes text.old ++ lane_text port bytes.now) }
{
    let size = bytes.len();
    let bytes = HexBytes(bytes);
    write!(text, "port {port} ({size}):{bytes}\n")
}

fn write_untagged(text: &mut String, none: Untagged) -> Result<(), AllocError>
    ensures { OnOk result (string_bytes text.new ≡ string_bytes text.old ++ untagged_text none.total none.errors) }
{
    let total = none.total;
    let errors = none.errors;
    write!(
        text,
        "none ({total}): {errors} with OBF, AUX and Error all set\n"
    )
}

// The four lanes in hexadecimal with their sizes, and the readings that belong to none.
#[tactic(auto, using(crate::proofs::Demuxing::lines_none, crate::proofs::Demuxing::lines_more))]
pub fn demux(heap: Global, pairs: &[[u8; 2]]) -> Result<String, Failure>
    ensures { MatchResult result (λ t. Done (map reading_of pairs.now) (string_bytes t)) (λ f. Undone (map reading_of pairs.now) f) }
{
    let readings = readings_of(heap, pairs)?;
    let none = count_untagged(readings.as_slice())?;
    let mut text = String::new(heap);
    for port in 0..PORTS {
        let bytes = lane_of(heap, readings.as_slice(), port)?;
        write_lane(&mut text, port, bytes.as_slice())?;
    }
    write_untagged(&mut text, none)?;
    Ok(text)
}
