// The loops of the runs: one record, or one question, many times.
ghost use Rattle.std.specs.Prelude.{◌≡◌, ◌*◌, ℕ, length};
ghost use Rattle.controller.specs.Node.{Node as Held, state_of, steering, asked, answer_in};
ghost use Rattle.bandwidth.specs.Free.{free_bandwidth};
ghost use Rattle.bench.specs.Runs.{told, carried, pointed, weighed, freed};

use controller::{Node, Returned};
use ways::Reply;
use wire::Refusal;

// The result of a record, and 256 for each report that was written.
fn told(answer: Result<Returned, Refusal>) -> u32
    ensures { (n : Held) → result ≡ told (answer_in n answer) }
{
    match answer {
        Ok(r) => u32::from(u8::from(r.taken)) + 256 * u32::from(r.reports),
        Err(refusal) => u32::from(u8::from(refusal)),
    }
}

// The same record many times, each with the node that the one before left.
pub(crate) fn carry(node: &mut Node, bytes: &[u8], out: &mut [u8], calls: u32) -> u64
    ensures { result ≡ carried (length out.old) bytes.now calls node.old }
{
    let mut sum = 0;
    for _ in 0..calls {
        sum += u64::from(told(node.take_record(bytes, out)));
    }
    sum
}

// The same question many times. It is lent a 0 that hangs on the sum, so that a compiler cannot ask once for all turns.
pub(crate) fn repeat<F: Fn(u32) -> u16>(calls: u32, ask: F) -> u64
    requires { F.pre ask 0 }
    ensures { (x : ℕ) → ((r : ℕ) → F.post ask 0 r → r ≡ x) → result ≡ calls * x }
{
    let mut sum = 0;
    for _ in 0..calls {
        sum += u64::from(ask((sum >> 48) as u32));
    }
    sum
}

// The numbers of the way to an address, read as a console reads them: behind the reply only where there is a way, so that what is counted is the call.
pub(crate) fn way_sum(node: &Node, address: u64) -> u16
    ensures { result ≡ pointed (steering (state_of node.now) address) }
{
    let way = node.steer(address);
    let reply = u16::from(u8::from(way.reply));
    match way.reply {
        Reply::West | Reply::East => {
            reply + u16::from(way.hops) + u16::from(way.worst) + u16::from(way.span)
        }
        Reply::NoWay | Reply::Unknown => reply,
    }
}

// The reply and the first weight of an address.
pub(crate) fn shown_sum(node: &Node, address: u64) -> u16
    ensures { result ≡ weighed (asked (state_of node.now) address) }
{
    match node.attributes(address) {
        None => 3,
        Some(x) => u16::from(x.behind) + u16::from(x.weight0),
    }
}

// What is left of a link rate, of which the node has 1 and 2: the result, and 256 for the defect.
pub(crate) fn free_sum(node: &Node, rate: u32) -> u16
    ensures { result ≡ freed (free_bandwidth (state_of node.now) rate 1 2) }
{
    match bandwidth::free_bandwidth(node, rate, 1, 2) {
        Ok(free) => 256 * u16::from(free.is_excess()),
        Err(refusal) => u16::from(u8::from(refusal)),
    }
}
