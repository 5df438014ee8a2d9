// The fixed records of the runs.
ghost use Rattle.std.specs.Prelude.{◌≡◌, ◌≤◌, length};
ghost use Rattle.bench.specs.Records.{operator, report, attributes, ticks, middle, record_of};

use crate::ring::Size;
use arrayvec::ArrayVec;
use stations::FARTHEST_HOP;

// A record of a number, with room for the longest here.
pub(crate) type Record = ArrayVec<u8, 25>;

const TICK: [u8; 4] = [2, 0, 1, 0];

const LINK_GOOD: [u8; 6] = [4, 0, 2, 0, 0, 0];

const KEEPALIVE: [u8; 5] = [3, 0, 3, 0, 0];

// A kind that no call takes.
const UNKNOWN: [u8; 4] = [2, 0, 8, 0];

pub(crate) fn operator(span: u8, request: u8) -> [u8; 6]
    ensures { result ≡ operator span request }
{
    [4, 0, 4, 0, span, request]
}

// So many ticks in one record, of which the two low bytes count.
pub(crate) fn ticks(n: u32) -> [u8; 6]
    ensures { result ≡ ticks n }
{
    let [low, high, ..] = n.to_le_bytes();
    [4, 0, 7, 0, low, high]
}

// A report at a hop of a ringlet: sequence 1, idle.
pub(crate) fn report(ringlet: u8, hop: u8, high: u8, low: u8) -> [u8; 16]
    requires { 1 ≤ hop }
    ensures { result ≡ report ringlet hop high low }
{
    let ttl = 255 - (hop - 1);
    [
        14, 0, 5, 0, ringlet, ringlet, ttl, 2, 0, 0, 0, high, low, 1, 0, 0,
    ]
}

// Weights 3, 5 and bandwidths 1000, 0.
fn attributes(high: u8, low: u8) -> [u8; 25]
    ensures { result ≡ attributes high low }
{
    [
        23, 0, 6, 0, 0, 2, 0, 0, 0, high, low, 128, 1, 0, 2, 3, 5, 128, 2, 0, 4, 3, 232, 0, 0,
    ]
}

// The station in the middle of a ring; of two rings that are being joined, the last on ringlet 0.
pub(crate) fn middle(stations: u8) -> u8
    ensures is { result ≡ middle stations }
    ensures hop { 1 ≤ result }
{
    if FARTHEST_HOP < stations {
        FARTHEST_HOP
    } else {
        stations / 2 + 1
    }
}

fn packed(bytes: &[u8]) -> Record
    requires { length bytes.now ≤ 25 }
    ensures { result.items ≡ bytes.now }
{
    ArrayVec::try_from(bytes).unwrap()
}

// The record of a number that C calls with, for a ring of a size.
#[tactic(auto, unfolding(crate::specs::Records::record_of))]
pub(crate) fn record_of(size: Size, which: u32) -> Record
    ensures { result.items ≡ record_of size.stations which }
{
    let stations = size.stations;
    match which {
        0 => packed(&TICK),
        1 => packed(&KEEPALIVE),
        2 => packed(&report(0, middle(stations), 1, middle(stations))),
        3 => packed(&report(0, stations + 1, 0, 255)),
        4 | 9 => packed(&report(0, 1, 0, 255)),
        5 => packed(&attributes(1, 1)),
        6 => packed(&LINK_GOOD),
        7 => packed(&operator(1, 0)),
        8 => packed(&UNKNOWN),
        _ => ArrayVec::new(),
    }
}
