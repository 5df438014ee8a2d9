// The lines of a drill. Each has room for seven fields of at most 20 digits, each with a byte behind it.
ghost use Rattle.std.specs.Prelude.{◌≡◌, ◌+◌, ◌*◌, ◌≤◌, ◌++◌, length};
ghost use Rattle.ways.specs.Choice.{numbers};
ghost use Rattle.wire.specs.Results.{refusal_number};
ghost use Rattle.controller.specs.Node.{state_of, answer_in};
ghost use Rattle.drill.specs.Lines.{record_line, refused_line, way_line, question_line, settings_line};
ghost use Rattle.drill.specs.Promise.{Number, Spaced};

use arrayvec::ArrayVec;
use controller::{Node, Returned};
use ways::Steering;
use wire::Refusal;

pub(crate) type Line = ArrayVec<u8, 147>;

fn put_word(line: &mut Line, word: &[u8])
    requires { length line.old.items + length word.now ≤ 147 }
    ensures { line.new.items ≡ line.old.items ++ word.now }
{
    line.try_extend_from_slice(word).unwrap();
}

// A number and the byte behind it.
fn put_number(line: &mut Line, n: u64, b: u8)
    requires { length line.old.items + 21 ≤ 147 }
    ensures { Number n b line.old.items line.new.items }
{
    let mut digits = [0; 20];
    let count = io::decimal(n, &mut digits);
    put_word(line, &digits[..count]);
    line.push(b);
}

// Numbers with a space behind each.
fn put_numbers(line: &mut Line, numbers: &[u64])
    requires { length line.old.items + 21 * length numbers.now ≤ 147 }
    ensures { Spaced numbers.now line.old.items line.new.items }
{
    for &n in numbers {
        put_number(line, n, b' ');
    }
}

// Refused settings: the word and the number.
#[tactic(auto, unfolding(crate::specs::Lines::settings_line, crate::specs::Text::line, crate::specs::Text::ascii))]
pub(crate) fn settings(refusal: Refusal) -> Line
    ensures { result.items ≡ settings_line (refusal_number refusal) }
{
    let mut line = Line::new();
    put_word(&mut line, b"settings ");
    put_number(&mut line, u64::from(u8::from(refusal)), b'\n');
    line
}

// A number and a result, for what never comes to the controller.
#[tactic(auto, unfolding(crate::specs::Lines::refused_line, crate::specs::Text::line))]
pub(crate) fn refused(number: u64, refusal: Refusal) -> Line
    ensures { result.items ≡ refused_line number (refusal_number refusal) }
{
    let mut line = Line::new();
    put_number(&mut line, number, b' ');
    put_number(&mut line, u64::from(u8::from(refusal)), b'\n');
    line
}

// Number, the word way, reply, and of the way chosen its hops, its worst request and the first span that has it.
#[tactic(auto, unfolding(crate::specs::Lines::way_line, crate::specs::Text::line, crate::specs::Text::ascii))]
fn way(number: u64, way: Steering) -> Line
    ensures { result.items ≡ way_line number (numbers way) }
{
    let mut line = Line::new();
    put_number(&mut line, number, b' ');
    put_word(&mut line, b"way ");
    let told = [
        u64::from(u8::from(way.reply)),
        u64::from(way.hops),
        u64::from(way.worst),
    ];
    put_numbers(&mut line, &told);
    put_number(&mut line, u64::from(way.span), b'\n');
    line
}

// A question: the way to an address; a wrong body length or an odd first byte is 4.
#[tactic(auto, unfolding(crate::specs::Lines::question_line))]
pub(crate) fn question(number: u64, node: &Node, body: &[u8]) -> Line
    ensures { result.items ≡ question_line number (state_of node.now) body.now }
{
    let address = wire::address_at(body, 0);
    if body.len() != 6 || wire::odd_first(address) {
        return refused(number, Refusal::Unfit);
    }
    way(number, node.steer(address))
}

// A record: number, result, west request, east request, own sequence, stations, number of reports.
#[tactic(auto, unfolding(crate::specs::Lines::record_line, crate::specs::Text::line))]
pub(crate) fn record(number: u64, node: &Node, answer: Result<Returned, Refusal>) -> Line
    ensures { result.items ≡ record_line number (answer_in node.now answer) }
{
    let (result, reports) = match answer {
        Ok(returned) => (u8::from(returned.taken), returned.reports),
        Err(refusal) => (u8::from(refusal), 0),
    };
    let told = [
        number,
        u64::from(result),
        u64::from(node.west_request()),
        u64::from(node.east_request()),
        u64::from(node.own_sequence()),
        node.station_count() as u64,
    ];
    let mut line = Line::new();
    put_numbers(&mut line, &told);
    put_number(&mut line, u64::from(reports), b'\n');
    line
}
