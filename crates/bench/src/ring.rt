// The ring that every run starts from.
ghost use Rattle.std.specs.Prelude.{◌≡◌, ◌≤◌};
ghost use Rattle.stations.specs.Stations.{capacity};
ghost use Rattle.bench.specs.Ring.{taken, capped, around, alone, joined, ring_of, parted, forced};

use crate::records::{operator, report};
use controller::Node;
use stations::{FARTHEST_HOP, PLACES};

// Kind 32: level 2, address 02-00-00-00-00-01, WTR 0, hold-off 0, keepalive 50, fast 10, slow 2, forget 600.
const SETTINGS: [u8; 19] = [17, 0, 32, 0, 2, 2, 0, 0, 0, 0, 1, 0, 0, 0, 50, 10, 2, 88, 2];

// A record taken, with room for a report. The ring is laid out whatever is answered.
#[tactic(auto, unfolding(crate::specs::Ring::taken, crate::specs::Ring::taken_in))]
fn take(node: &mut Node, bytes: &[u8])
    ensures { node.new ≡ (taken node.old bytes.now).node }
{
    let _ = node.take_record(bytes, &mut [0; 7]);
}

// How many stations a ring has: no more than there are places.
#[derive(Clone, Copy, Debug, PartialEq, Eq)]
pub(crate) struct Size {
    pub(crate) stations: u8,
    ghost fits: { stations ≤ capacity },
}

impl Size {
    // A number above that of the places counts as that.
    pub(crate) fn capped(stations: u32) -> Size
        ensures { result.stations ≡ capped stations }
    {
        Size {
            stations: stations.min(PLACES as u32) as u8,
        }
    }
}

// Station k of a ring is heard on both ringlets.
#[tactic(auto, unfolding(crate::specs::Ring::around))]
fn join_around(node: &mut Node, size: Size, k: u8)
    requires first { 1 ≤ k }
    requires last { k ≤ size.stations }
    ensures { node.new ≡ around size.stations k node.old }
{
    take(node, &report(0, k, 1, k));
    take(node, &report(1, size.stations + 1 - k, 1, k));
}

// Station k of two rings that are being joined is heard on one ringlet alone.
#[tactic(auto, unfolding(crate::specs::Ring::alone))]
fn join_alone(node: &mut Node, k: u8)
    requires { 1 ≤ k }
    ensures { node.new ≡ alone k node.old }
{
    if FARTHEST_HOP < k {
        take(node, &report(1, k - FARTHEST_HOP, 1, k));
    } else {
        take(node, &report(0, k, 1, k));
    }
}

// Station k is heard. More stations than hops are those of two rings.
#[tactic(auto, unfolding(crate::specs::Ring::joined))]
fn join(node: &mut Node, size: Size, k: u8)
    requires first { 1 ≤ k }
    requires last { k ≤ size.stations }
    ensures { node.new ≡ joined size.stations k node.old }
{
    if FARTHEST_HOP < size.stations {
        join_alone(node, k);
    } else {
        join_around(node, size, k);
    }
}

// The ring of so many stations. The node is lent: returned, up to three more would lie on the stack of a run.
#[tactic(auto, unfolding(crate::specs::Ring::ring_of))]
pub(crate) fn ring(node: &mut Node, size: Size)
    ensures { node.new ≡ ring_of size.stations }
{
    let _ = node.start(&SETTINGS);
    for k in 1..=size.stations {
        join(node, size, k);
    }
}

// Station 2 takes the hop of station 1 on ringlet 1.
#[tactic(auto, unfolding(crate::specs::Ring::parted))]
pub(crate) fn part(node: &mut Node, size: Size)
    ensures { node.new ≡ parted size.stations node.old }
{
    take(node, &report(1, size.stations.max(1), 1, 2));
}

// FS from the operator on both spans.
#[tactic(auto, unfolding(crate::specs::Ring::forced))]
pub(crate) fn force(node: &mut Node)
    ensures { node.new ≡ forced node.old }
{
    take(node, &operator(0, 5));
    take(node, &operator(1, 5));
}
