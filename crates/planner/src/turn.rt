// What is done with a record that was read.
ghost use Rattle.std.specs.Prelude.{◌≡◌};
ghost use Rattle.wire.specs.Fields.{word_at};
ghost use Rattle.controller.specs.Node.{started_in, state_of};
ghost use Rattle.controller.specs.Promise.{Begun};
ghost use Rattle.bandwidth.specs.Free.{free_as, free_bandwidth};
ghost use Rattle.planner.specs.Question.{settings_read, rate_in};

use crate::input::Cut;
use crate::line;
use bandwidth::{Free, Unanswered};
use controller::Node;
use std::ops::ControlFlow;
use wire::Refusal;

// The kind of a question.
const QUESTION: u16 = 41;

// What was read as settings; where there is no whole record, a start of no bytes, which is refused with 2.
pub(crate) fn begin(node: &mut Node, read: Result<Option<&[u8]>, Cut>) -> Result<(), Refusal>
    ensures { Begun (settings_read read.entry) (started_in node.new result) }
{
    node.start(read.unwrap_or(None).unwrap_or(&[]))
}

// The link rate of a question, the lowest byte first; a body of another length has none in range.
#[tactic(auto, unfolding(crate::specs::Question::rate_in))]
fn rate_in(body: &[u8]) -> u32
    ensures { result ≡ rate_in body.now }
{
    match *body {
        [a, b, c, d, _, _, _, _] => u32::from_le_bytes([a, b, c, d]),
        _ => u32::MAX,
    }
}

// The answer to a question: link rate, then the own reservation on each ringlet.
fn answer(node: &Node, body: &[u8]) -> Result<Free, Unanswered>
    ensures { free_as result ≡ free_bandwidth (state_of node.now) (rate_in body.now) (word_at body.now 4) (word_at body.now 6) }
{
    let rate = rate_in(body);
    let own0 = wire::word_at(body, 4);
    let own1 = wire::word_at(body, 6);
    bandwidth::free_bandwidth(node, rate, own0, own1)
}

// One whole record: a question, or one for the controller, whose reports go nowhere.
fn step(node: &mut Node, bytes: &[u8], out: &mut [u8]) {
    if wire::word_at(bytes, 2) == QUESTION {
        line::print_answer(answer(node, wire::body(bytes)));
    } else {
        let _ = node.take_record(bytes, out);
    }
}

// What was read: a cut record and the end of the input end the program.
pub(crate) fn take_turn(
    node: &mut Node,
    read: Result<Option<&[u8]>, Cut>,
    out: &mut [u8],
) -> ControlFlow<()> {
    match read {
        Ok(None) => ControlFlow::Break(()),
        Err(Cut) => {
            line::print_cut();
            ControlFlow::Break(())
        }
        Ok(Some(bytes)) => {
            step(node, bytes, out);
            ControlFlow::Continue(())
        }
    }
}
