// One direction that can be used.
ghost use Rattle.std.specs.Prelude.{◌≡◌};
ghost use Rattle.ways.specs.Steps.{west_of};

// Its worst request, its hops, and the first span that has that request.
#[derive(Clone, Copy, Debug, PartialEq, Eq, Default)]
pub struct Way {
    pub worst: u8,
    pub hops: u8,
    pub span: u8,
}

impl Way {
    // Both directions can be used: the lower worst request, then fewer hops, then west.
    pub(crate) fn beats(self, east: Way) -> bool
        ensures { result ≡ west_of self east }
    {
        (self.worst, self.hops) <= (east.worst, east.hops)
    }
}
