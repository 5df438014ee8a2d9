// What a record is answered, and the numbers that 01 gives the answers.
ghost use Rattle.std.specs.Prelude.{◌≡◌};
ghost use Rattle.wire.specs.Results.{number, refusal_number, taken_number};

// What a record, settings or a block is refused with.
#[derive(Clone, Copy, Debug, PartialEq, Eq)]
pub enum Refusal {
    NoRoom,
    Broken,
    WrongKind,
    // Wrong body length, a field out of range, or an odd first address byte.
    Unfit,
    OwnAddress,
    HopTooHigh,
    NotInTable,
    Malformed,
}

// What becomes of a record that is not refused.
#[derive(Clone, Copy, Debug, PartialEq, Eq)]
pub enum Taken {
    Stored,
    WrongRinglet,
    SpanDown,
    OldReport,
    SetAside,
}

impl From<Refusal> for u8 {
    ghost from_gives = { λ r n. n ≡ refusal_number r };

    fn from(r: Refusal) -> u8 {
        match r {
            Refusal::NoRoom => 1,
            Refusal::Broken => 2,
            Refusal::WrongKind => 3,
            Refusal::Unfit => 4,
            Refusal::OwnAddress => 5,
            Refusal::HopTooHigh => 6,
            Refusal::NotInTable => 7,
            Refusal::Malformed => 8,
        }
    }
}

impl From<Taken> for u8 {
    ghost from_gives = { λ t n. n ≡ taken_number t };

    fn from(t: Taken) -> u8 {
        match t {
            Taken::Stored => 0,
            Taken::WrongRinglet => 20,
            Taken::SpanDown => 21,
            Taken::OldReport => 22,
            Taken::SetAside => 24,
        }
    }
}

// The number returned for a record: 1 to 8 for a refusal, else 0 or 20 to 24.
pub fn number(answer: Result<Taken, Refusal>) -> u8
    ensures { result ≡ number answer }
{
    match answer {
        Ok(taken) => taken.into(),
        Err(refusal) => refusal.into(),
    }
}
