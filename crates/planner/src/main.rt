// The planner's program: settings, then records, from standard input; a line for each question of free bandwidth.
// Follows 02, Item 1. It is thin, so that the numbers can be compared from outside; what it prints is tested.
// Stands on bandwidth, controller and wire, and on io for its input and output: std's would assume more than C's read and write (errno, and lseek for its reader), and promise no more.
#![tactic(auto)]

mod input;
mod line;
mod turn;

use controller::Node;
use std::ops::ControlFlow;

fn main() {
    let mut node = Node::new();
    let mut buf = [0; 1035];
    let read = input::read_record(&mut buf);
    match turn::begin(&mut node, read) {
        Ok(()) => run(&mut node),
        Err(refusal) => line::print_settings(refusal),
    }
}

// One record after the other, as many as 64 bits count: a loop without a bound would have no proof that it ends.
fn run(node: &mut Node) {
    // Room for the reports of any record, one for all: setting it to zero for each would cost more than the record.
    let mut out = [0; 7000];
    for _ in 0..u64::MAX {
        if next(node, &mut out).is_break() {
            return;
        }
    }
}

// A record read, and taken or answered; whether there may be another.
fn next(node: &mut Node, out: &mut [u8]) -> ControlFlow<()> {
    let mut buf = [0; 1035];
    let read = input::read_record(&mut buf);
    turn::take_turn(node, read, out)
}
