// The steps of the drill, apart from reading and writing.
ghost use Rattle.std.specs.Prelude.{◌≡◌};
ghost use Rattle.drill.specs.Turns.{goes_on, stepped, turned, begun};
ghost use Rattle.drill.specs.Promise.{read_as, step_in};

use crate::input::Cut;
use crate::line;
use crate::line::Line;
use controller::Node;
use std::ops::ControlFlow;
use wire::Refusal;

// The kind of the drill's own question.
const QUESTION: u16 = 40;

// The line of a step, and whether the drill goes on.
pub(crate) type Turn = ControlFlow<Line, Line>;

// One whole record: kind 40 is the drill's own question, any other is the controller's.
#[tactic(auto, unfolding(crate::specs::Turns::stepped))]
fn step(node: &mut Node, number: u64, bytes: &[u8]) -> Line
    ensures { goes_on node.new result.items ≡ stepped number node.old bytes.now }
{
    if wire::word_at(bytes, 2) == QUESTION {
        return line::question(number, node, wire::body(bytes));
    }
    let mut out = [0; 7000];
    let answer = node.take_record(bytes, &mut out);
    line::record(number, node, answer)
}

// What was read at a number: a cut record and the end of the input end the drill.
#[tactic(auto, unfolding(crate::specs::Turns::turned))]
pub(crate) fn take_turn(node: &mut Node, number: u64, read: Result<Option<&[u8]>, Cut>) -> Turn
    ensures { step_in node.new result ≡ turned number node.old (read_as read.entry) }
{
    match read {
        Ok(None) => ControlFlow::Break(Line::new()),
        Err(Cut) => ControlFlow::Break(line::refused(number, Refusal::Broken)),
        Ok(Some(bytes)) => ControlFlow::Continue(step(node, number, bytes)),
    }
}

// What was read as settings; where there is no whole record, a start of no bytes, which is refused with 2.
pub(crate) fn begin(node: &mut Node, read: Result<Option<&[u8]>, Cut>) -> Turn
    ensures { step_in node.new result ≡ begun (read_as read.entry) }
{
    let settings = read.unwrap_or(None).unwrap_or(&[]);
    match node.start(settings) {
        Ok(()) => ControlFlow::Continue(Line::new()),
        Err(refusal) => ControlFlow::Break(line::settings(refusal)),
    }
}
