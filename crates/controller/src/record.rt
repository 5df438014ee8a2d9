// One record: read, handled, closed; or many ticks, each so.
ghost use Rattle.std.specs.Prelude.{◌≡◌, ◌*◌, ◌≤◌, length};
ghost use Rattle.controller.specs.Reading.{block_of};

use crate::close::{report, sweep};
use crate::judge::judge;
use crate::node::Node;
use crate::reading::{Event, read_record, room_for, times_in};
use wire::{Refusal, Taken};

// What becomes of a record that is not refused, and how many reports stand one after another from the front of the output.
#[derive(Clone, Copy, Debug, PartialEq, Eq)]
pub struct Returned {
    pub reports: u16,
    pub taken: Taken,
}

// Where the block of an attribute record begins: behind its head, span and address.
const BLOCK_AT: usize = 11;

// The block of an attribute record.
fn block_of(b: &[u8]) -> &[u8]
    ensures { result.now ≡ block_of b.now }
{
    b.get(BLOCK_AT..).unwrap_or(&[])
}

impl Node {
    ghost use Rattle.controller.specs.Kept.{Kept, ReadingKept};
    ghost use Rattle.controller.specs.Node.{answer_in, returned};
    ghost use Rattle.controller.specs.Promise.{Recorded};
    ghost use Rattle.controller.specs.Reading.{reading_of_event};
    ghost use Rattle.controller.specs.Steps.{TookReading, TookTick, TookTicks};

    // An event that was read, with the block that it may carry; its report goes to the front of the output.
    fn take_event(
        &mut self,
        event: Event,
        block: &[u8],
        out: &mut [u8],
    ) -> Result<Returned, Refusal>
        requires { ReadingKept self.old.settings.address (reading_of_event event) }
        ensures { TookReading self.old (reading_of_event event) block.now out.old out.new (answer_in self.new result) }
    {
        let t = self.settings.ticks();
        self.spans.act(event, &t);
        let taken = judge(&mut self.table, &self.settings, &self.spans, event, block)?;
        let reports = report(&mut self.pacer, &self.spans, &t, event.is_tick(), out);
        sweep(&mut self.table, &self.spans, &t);
        Ok(Returned { reports, taken })
    }

    // A tick, with all its closing steps, and how many reports it writes; they go behind those that are there.
    fn take_tick(&mut self, out: &mut [u8], at: usize) -> u16
        requires { at ≤ length out.old }
        ensures { TookTick self.old at out.old out.new (answer_in self.new (returned result)) }
    {
        let t = self.settings.ticks();
        self.spans.act(Event::Tick, &t);
        // `as` is proved to lose nothing, as in judge.
        self.table.raise_ages(t.forget as u16);
        let reports = report(&mut self.pacer, &self.spans, &t, true, &mut out[at..]);
        sweep(&mut self.table, &self.spans, &t);
        reports
    }

    // So many ticks, one after another.
    #[tactic(auto, using(crate::proofs::Ticking::begins, crate::proofs::Ticking::done))]
    fn take_ticks(&mut self, out: &mut [u8], ticks: u16) -> Returned
        requires { 7 * ticks ≤ length out.old }
        ensures { TookTicks self.old ticks out.old out.new (answer_in self.new (Ok result)) }
    {
        let mut reports = 0;
        for _ in 0..ticks {
            reports += self.take_tick(out, room_for(reports));
        }
        Returned {
            reports,
            taken: Taken::Stored,
        }
    }

    // A node takes a record from any bytes, with a buffer for its reports: refused (1 to 8), or taken (0, 20 to 22, 24).
    #[tactic(auto, using(crate::proofs::Records::no_room, crate::proofs::ReadKept::read_in_kept))]
    pub fn take_record(&mut self, bytes: &[u8], out: &mut [u8]) -> Result<Returned, Refusal>
        ensures { Recorded self.old bytes.now out.old out.new (answer_in self.new result) }
    {
        let own = self.settings.address;
        if out.len() < wire::REPORT_LENGTH {
            return Err(Refusal::NoRoom);
        }
        match read_record(bytes, own, out.len())? {
            Event::Tick => Ok(self.take_ticks(out, times_in(bytes))),
            event => self.take_event(event, block_of(bytes), out),
        }
    }
}
