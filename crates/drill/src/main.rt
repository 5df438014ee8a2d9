// The drill program: settings, then records, from standard input; a line for each record and question.
// Follows 01, section The drill program.
// Stands on controller, ways and wire, on arrayvec for its lines, and on io for its input and output: std's would assume more than C's read and write (errno, and lseek for its reader), and promise no more.
#![tactic(auto)]

mod input;
mod line;
mod turn;

ghost use Rattle.drill.specs.Promise.{Taken, Ran};

use controller::Node;
use std::ops::ControlFlow;
use turn::Turn;

// Standard output.
const OUTPUT: i32 = 1;

fn main() {
    let mut node = Node::new();
    let mut buf = [0; 1035];
    let read = input::read_record(&mut buf);
    let turn = turn::begin(&mut node, read);
    tell(&turn);
    if turn.is_continue() {
        run(&mut node);
    }
}

// The line of a step, all of it.
fn tell(turn: &Turn) {
    let (ControlFlow::Continue(line) | ControlFlow::Break(line)) = turn;
    io::write_all(OUTPUT, line.as_slice());
}

// One record after the other, numbered from 1; the number of the one that ended the drill.
fn run(node: &mut Node) -> Option<u64>
    ensures { Ran node.old node.new result }
{
    for number in 1..=u64::MAX {
        if next(node, number).is_break() {
            return Some(number);
        }
    }
    None
}

// The record of a number: read, taken, told.
fn next(node: &mut Node, number: u64) -> Turn
    ensures { Taken number node.old node.new result }
{
    let mut buf = [0; 1035];
    let read = input::read_record(&mut buf);
    let turn = turn::take_turn(node, number, read);
    tell(&turn);
    turn
}
