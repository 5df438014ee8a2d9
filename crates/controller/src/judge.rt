// What an event does to the stations, and its result. A refusal is decided before anything is stored.
ghost use Rattle.std.specs.Prelude.{◌≡◌, ◌<◌, ◌^◌, true};
ghost use Rattle.blocks.specs.Types.{knows};
ghost use Rattle.blocks.specs.Meaning.{meaning};
ghost use Rattle.stations.specs.Station.{is_hop};
ghost use Rattle.stations.specs.Hearing.{left};
ghost use Rattle.controller.specs.Handling.{hearing, learning, judged};
ghost use Rattle.controller.specs.Kept.{ReadingKept};
ghost use Rattle.controller.specs.Node.{choice_of};
ghost use Rattle.controller.specs.Reading.{reading_of_event};
ghost use Rattle.settings.specs.Ticks.{ticks_of};

use crate::reading::Event;
use crate::sides::Spans;
use blocks::{Attributes, Block};
use settings::{Settings, Ticks};
use stations::{Report, Table};
use wire::{Refusal, Taken};

// A report heard: steps (b) and (c), then the table.
#[tactic(auto, using(stations::proofs::Room::any_placed), unfolding(crate::specs::Handling::hearing))]
fn hear(table: &mut Table, spans: &Spans, t: &Ticks, n: u8, p: Report) -> Result<Taken, Refusal>
    requires { is_hop p.hop ≡ true }
    ensures { left table.new result ≡ hearing t.now n p spans.now table.old }
{
    if p.ringlet != n {
        return Ok(Taken::WrongRinglet);
    }
    if spans.span(n).down(t) {
        return Ok(Taken::SpanDown);
    }
    table.hear_report(p)
}

// Attributes heard: span down, then not in the table, then the block.
#[tactic(auto, using(crate::proofs::Judging::unknown), unfolding(crate::specs::Handling::learning))]
fn learn(
    table: &mut Table,
    spans: &Spans,
    t: &Ticks,
    n: u8,
    address: u64,
    block: &[u8],
    level: u8,
) -> Result<Taken, Refusal>
    ensures { left table.new result ≡ learning t.now n address (meaning (knows level) block.now) spans.now table.old }
{
    if spans.span(n).down(t) {
        return Ok(Taken::SpanDown);
    }
    let Some(at) = table.find_station(address) else {
        return Err(Refusal::NotInTable);
    };
    match blocks::read_block(block, level)? {
        Block::Aside(kind) => {
            table.give_attributes(at, Attributes::behind_with(kind));
            Ok(Taken::SetAside)
        }
        Block::Values {
            weight0,
            weight1,
            reserved0,
            reserved1,
        } => {
            let x = Attributes {
                kind: 0,
                reserved0,
                reserved1,
                weight0,
                weight1,
                behind: false,
            };
            table.give_attributes(at, x);
            Ok(Taken::Stored)
        }
    }
}

// The result, and the stations after an event.
#[tactic(auto, unfolding(crate::specs::Handling::judged))]
pub(crate) fn judge(
    table: &mut Table,
    settings: &Settings,
    spans: &Spans,
    event: Event,
    block: &[u8],
) -> Result<Taken, Refusal>
    requires forget { (ticks_of settings.now).forget < 2 ^ 16 }
    requires event { ReadingKept settings.now.address (reading_of_event event) }
    ensures { left table.new result ≡ judged (choice_of settings.now) (reading_of_event event) block.now spans.now table.old }
{
    let t = settings.ticks();
    match event {
        Event::Tick => {
            // `as`, which is proved to lose nothing: there is no `From`, and `try_from` with an `unwrap` is no plainer.
            table.raise_ages(t.forget as u16);
            Ok(Taken::Stored)
        }
        Event::Link { .. } | Event::Keepalive(_) | Event::Operator { .. } => Ok(Taken::Stored),
        Event::Heard { span, report } => hear(table, spans, &t, span, report),
        Event::Block { span, address } => {
            learn(table, spans, &t, span, address, block, settings.level)
        }
    }
}
