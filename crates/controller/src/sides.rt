// The two spans of a node, and what an event does to them.
ghost use Rattle.std.specs.Prelude.{◌≡◌};
ghost use Rattle.std.specs.Fn.{FnOnceReturnsAtMut};

use crate::reading::Event;
use settings::Ticks;
use spans::Span;

#[derive(Clone, Copy, Debug, PartialEq, Eq)]
pub struct Spans {
    pub west: Span,
    pub east: Span,
}

impl Spans {
    ghost use Rattle.controller.specs.State.{span_of, with_span, spans_at_start};
    ghost use Rattle.controller.specs.Closing.{settled};
    ghost use Rattle.spans.specs.Requests.{automatic, waited};
    ghost use Rattle.controller.specs.Handling.{acted};
    ghost use Rattle.controller.specs.Reading.{reading_of_event};

    // Both spans at start.
    pub(crate) fn at_start() -> Spans
        ensures { result ≡ spans_at_start }
    {
        Spans {
            west: Span::at_start(),
            east: Span::at_start(),
        }
    }

    // Span 0 is west, any other number east.
    pub(crate) fn span(&self, n: u8) -> Span
        ensures { result ≡ span_of n self.now }
    {
        if n == 0 { self.west } else { self.east }
    }

    fn put(&mut self, n: u8, s: Span)
        ensures { self.new ≡ with_span n s self.old }
    {
        if n == 0 {
            self.west = s;
        } else {
            self.east = s;
        }
    }

    // The span that an event names after what the event does to it, and its WTR step.
    fn settle<F: FnOnce(&mut Span)>(&mut self, n: u8, t: &Ticks, handle: F)
        requires { F.IsAlwaysCallable handle }
        ensures { (s : _) × (FnOnceReturnsAtMut F.FnOnce handle (span_of n self.old) tt s)
            × (self.new ≡ with_span n (waited t.now (automatic t.now (span_of n self.old)) s) self.old) }
    {
        let mut s = self.span(n);
        let was = s.automatic(t);
        handle(&mut s);
        s.wait(was, t);
        self.put(n, s);
    }

    // The spans after an event. Of a span that the event does not name no request changes, so that it has no WTR step.
    // Inlined, here and in close.rt: a call would put event and ticks into memory, which cost a keepalive 121 instructions of 292.
    #[inline(always)]
    #[tactic(auto, unfolding(crate::specs::Closing::settled, crate::specs::Handling::acted, crate::specs::Handling::cabled))]
    pub(crate) fn act(&mut self, event: Event, t: &Ticks)
        ensures { self.new ≡ settled t.now self.old (acted t.now (reading_of_event event) self.old) }
    {
        match event {
            Event::Tick => {
                self.settle(0, t, |s| s.tick(t));
                self.settle(1, t, |s| s.tick(t));
            }
            Event::Link { span, status } => self.settle(span, t, |s| s.link(status, t)),
            Event::Keepalive(span) => self.settle(span, t, |s| s.keepalive()),
            Event::Operator { span, request } => self.settle(span, t, |s| s.operate(request)),
            // A report from the neighbour tells whether the cables are crossed.
            Event::Heard { span, report } => {
                if report.hop == 1 {
                    self.settle(span, t, |s| s.mark(report.ringlet != span));
                }
            }
            Event::Block { .. } => {}
        }
    }
}
