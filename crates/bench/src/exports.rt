// What a benchmark calls.
ghost use Rattle.std.specs.Prelude.{◌≡◌, ◌*◌, length};
ghost use Rattle.controller.specs.Node.{state_of, steering, asked};
ghost use Rattle.bandwidth.specs.Free.{free_bandwidth};
ghost use Rattle.bench.specs.Records.{ticks, record_of};
ghost use Rattle.bench.specs.Ring.{capped, ring_of};
ghost use Rattle.bench.specs.Runs.{carried, pointed, weighed, freed, station, addressee, standing, readied, node_bytes};

use crate::records::{middle, record_of, ticks};
use crate::ring::{Size, force, part, ring};
use crate::runs::{carry, free_sum, repeat, shown_sum, way_sum};
use controller::Node;

// The ring alone: how many stations are in the table.
#[unsafe(no_mangle)]
pub extern "C" fn bench_setup(stations: u32) -> u64
    ensures { result ≡ length (state_of (ring_of (capped stations))).stations }
{
    let mut node = Node::new();
    ring(&mut node, Size::capped(stations));
    node.station_count() as u64
}

// The bytes of a node, which its caller keeps: what a call needs of the stack is besides them.
#[unsafe(no_mangle)]
pub extern "C" fn bench_node() -> u64
    ensures { result ≡ node_bytes }
{
    size_of::<Node>() as u64
}

// The node that takes the record of a number; numbers and no enum, here and below: C calls with them.
#[tactic(auto, unfolding(crate::specs::Runs::readied))]
fn ready(node: &mut Node, size: Size, which: u32)
    ensures { node.new ≡ readied size.stations which }
{
    ring(node, size);
    if which == 9 {
        part(node, size);
    }
}

// The ring, then one record `calls` times, the node carried from call to call.
// 0 tick, 1 keepalive, 2 a copy from the middle station, 3 a new station at the next hop (6 from 63 stations on), 4 a new station at hop 1,
// 5 attributes, 6 link good, 7 operator none, 8 an unknown kind, 9 a new station at hop 1 where the one there leaves, any other number an
// empty record.
// Ticks carried: at the 50th without a keepalive both spans go down and the table is emptied.
#[unsafe(no_mangle)]
pub extern "C" fn bench_record(stations: u32, which: u32, calls: u32) -> u64
    ensures { result ≡ carried 7 (record_of (capped stations) which) calls (readied (capped stations) which) }
{
    let size = Size::capped(stations);
    let record = record_of(size, which);
    let mut node = Node::new();
    ready(&mut node, size, which);
    carry(&mut node, &record, &mut [0; 7], calls)
}

// The ring, then `calls` times so many ticks in one record, with room for 1,000 reports.
#[unsafe(no_mangle)]
pub extern "C" fn bench_ticks(stations: u32, many: u32, calls: u32) -> u64
    ensures { result ≡ carried 7000 (ticks many) calls (ring_of (capped stations)) }
{
    let mut node = Node::new();
    ring(&mut node, Size::capped(stations));
    carry(&mut node, &ticks(many), &mut [0; 7000], calls)
}

// 02-00-00-00-01-k.
fn station(k: u8) -> u64
    ensures { result ≡ station k }
{
    2199023255808 + u64::from(k)
}

// Who is asked for by a number.
#[tactic(auto, unfolding(crate::specs::Runs::addressee))]
fn addressee(size: Size, which: u32) -> u64
    ensures { result ≡ addressee size.stations which }
{
    let stations = size.stations;
    match which {
        0 => station(1),
        2 => station(stations),
        3 => station(255),
        _ => station(middle(stations)),
    }
}

// The node that is asked by a number.
#[tactic(auto, unfolding(crate::specs::Runs::standing))]
fn stand(node: &mut Node, size: Size, which: u32)
    ensures { node.new ≡ standing size.stations which }
{
    ring(node, size);
    if 4 <= which {
        force(node);
    }
}

// The ring, then `calls` times the way to a station.
// 0 the nearest on ringlet 0, 1 the middle, 2 the last, 3 nobody, any other number the middle with FS on both spans.
#[unsafe(no_mangle)]
pub extern "C" fn bench_steer(stations: u32, which: u32, calls: u32) -> u64
    ensures { result ≡ calls * pointed (steering (state_of (standing (capped stations) which)) (addressee (capped stations) which)) }
{
    let size = Size::capped(stations);
    let mut node = Node::new();
    stand(&mut node, size, which);
    let address = addressee(size, which);
    repeat(calls, |zero| way_sum(&node, address + u64::from(zero)))
}

// The ring, then `calls` times the attributes of the same stations.
#[unsafe(no_mangle)]
pub extern "C" fn bench_attributes(stations: u32, which: u32, calls: u32) -> u64
    ensures { result ≡ calls * weighed (asked (state_of (standing (capped stations) which)) (addressee (capped stations) which)) }
{
    let size = Size::capped(stations);
    let mut node = Node::new();
    stand(&mut node, size, which);
    let address = addressee(size, which);
    repeat(calls, |zero| shown_sum(&node, address + u64::from(zero)))
}

// The ring, then `calls` times what is left of each ringlet at this link rate.
#[unsafe(no_mangle)]
pub extern "C" fn bench_free(stations: u32, rate: u32, calls: u32) -> u64
    ensures { result ≡ calls * freed (free_bandwidth (state_of (ring_of (capped stations))) rate 1 2) }
{
    let mut node = Node::new();
    ring(&mut node, Size::capped(stations));
    repeat(calls, |zero| free_sum(&node, rate + zero))
}
