// The choice of a way.
ghost use Rattle.std.specs.Prelude.{◌≡◌};
ghost use Rattle.ways.specs.Choice.{steering_to, number};
ghost use Rattle.ways.specs.Steps.{choice_of, direction, told_of};

use crate::walk::Course;
use crate::way::Way;
use stations::Table;

#[derive(Clone, Copy, Debug, PartialEq, Eq)]
pub enum Reply {
    West,
    East,
    NoWay,
    Unknown,
}

// The reply, and of the way chosen its hops, its worst request and the first span that has it; zeros where none is chosen.
#[derive(Clone, Copy, Debug, PartialEq, Eq)]
pub struct Steering {
    pub reply: Reply,
    pub hops: u8,
    pub worst: u8,
    pub span: u8,
}

impl Reply {
    fn choose(west: Option<Way>, east: Option<Way>) -> Reply
        ensures { result ≡ choice_of west east }
    {
        match (west, east) {
            (None, None) => Reply::NoWay,
            (Some(_), None) => Reply::West,
            (Some(w), Some(e)) if w.beats(e) => Reply::West,
            (_, Some(_)) => Reply::East,
        }
    }

    // The direction that a reply names.
    fn named(self, west: Option<Way>, east: Option<Way>) -> Option<Way>
        ensures { result ≡ direction self west east }
    {
        match self {
            Reply::West => west,
            Reply::East => east,
            Reply::NoWay | Reply::Unknown => None,
        }
    }

    // What is told with a reply of the direction that it names.
    fn tell(self, way: Option<Way>) -> Steering
        ensures { result ≡ told_of self way }
    {
        let w = way.unwrap_or_default();
        Steering {
            reply: self,
            hops: w.hops,
            worst: w.worst,
            span: w.span,
        }
    }
}

// The way to the station of an address, from the own requests west and east, and where the trouble on it is.
#[tactic(auto, using(crate::proofs::Sides::way_unknown))]
pub fn way_to(table: &Table, west: u8, east: u8, address: u64) -> Steering
    ensures { result ≡ steering_to west east table.now address }
{
    let Some(at) = table.find_station(address) else {
        return Reply::Unknown.tell(None);
    };
    let s = table.station_at(at);
    // One index, lent to both directions: two would be 256 bytes more of stack.
    let mut index = [0; 256];
    let west_way = Course {
        ringlet: 0,
        own: west,
        hops: s.hop0,
    }
    .way(&mut index, table);
    let east_way = Course {
        ringlet: 1,
        own: east,
        hops: s.hop1,
    }
    .way(&mut index, table);
    let reply = Reply::choose(west_way, east_way);
    reply.tell(reply.named(west_way, east_way))
}

// The number that 01 gives each reply.
impl From<Reply> for u8 {
    ghost from_gives = { λ r n. n ≡ number r };

    fn from(r: Reply) -> u8 {
        match r {
            Reply::West => 0,
            Reply::East => 1,
            Reply::NoWay => 2,
            Reply::Unknown => 3,
        }
    }
}
