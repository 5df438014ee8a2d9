// One pass over the table to find who stands at each hop, and one along the hops. The side is the ringlet: 0 is west, any other number east.
ghost use Rattle.std.specs.Prelude.{◌≡◌};
ghost use Rattle.ways.specs.Walk.{near, far, walk};
ghost use Rattle.ways.specs.Steps.{slots, ends_of, walked, below_failure, side_of};
ghost use Rattle.ways.specs.Choice.{way};

use crate::way::Way;
use spans::codes::{IDLE, SF};
use stations::{Station, Table};

// The place of the station at each hop of a ringlet.
pub(crate) type Index = [u8; 256];

// No station has this place. An Option in each would take 512 bytes of stack, an Option of a station 2,048, where the index takes 256.
const NOBODY: u8 = 255;

// The place of the station at each hop of a ringlet. From the last station to the first, so that the first one counts.
#[tactic(auto, using(crate::proofs::Slots::filled_more, crate::proofs::Slots::filled_all))]
fn fill_index(index: &mut Index, table: &Table, ringlet: u8)
    ensures { index.new ≡ slots ringlet 0 table.now }
{
    *index = [NOBODY; 256];
    for (i, s) in table.stations().iter().enumerate().rev() {
        // `as`, which is proved to lose nothing: there is no `From`, and `try_from` with an `unwrap` is no plainer.
        index[usize::from(s.hop(ringlet))] = i as u8;
    }
}

// A way whose spans are all below SF.
fn below_failure(way: Option<Way>) -> Option<Way>
    ensures { result ≡ below_failure way }
{
    way.filter(|w| w.worst < SF)
}

// The walk over the hops 1 to `hops` of a ringlet, from the own request on that side.
#[derive(Clone, Copy)]
pub(crate) struct Course {
    pub ringlet: u8,
    pub own: u8,
    pub hops: u8,
}

impl Course {
    // The end at which it comes to a station, and the one at which it leaves it.
    fn ends(self, s: &Station) -> (u8, u8)
        ensures { result ≡ (near self.ringlet (ends_of s.now), far self.ringlet (ends_of s.now)) }
    {
        if self.ringlet == 0 {
            (s.east, s.west)
        } else {
            (s.west, s.east)
        }
    }

    // With the index of its ringlet. It counts the hops before the first span with the worst request: only a worse request moves it.
    fn walk_along(self, index: &Index, table: &Table) -> Option<Way>
        requires { index.now ≡ slots self.ringlet 0 table.now }
        ensures { result ≡ walked self.hops (walk self.ringlet self.own table.now self.hops) }
    {
        let stations = table.stations();
        let mut worst = IDLE;
        let mut before = 0;
        let mut end = self.own;
        for (j, k) in index[1..=usize::from(self.hops)].iter().enumerate() {
            let s = stations.get(usize::from(*k))?;
            let (near, far) = self.ends(s);
            let request = spans::higher(end, near);
            if worst < request {
                worst = request;
                before = j;
            }
            end = far;
        }
        // `as` is proved to lose nothing here too.
        Some(Way {
            worst,
            hops: self.hops,
            span: (before + 1) as u8,
        })
    }

    // The way, where it can be used. The index is room for the walk: what it held does not matter.
    #[tactic(auto, using(crate::proofs::Sides::side_zero, crate::proofs::Sides::side_walked))]
    pub(crate) fn way(self, index: &mut Index, table: &Table) -> Option<Way>
        ensures { result ≡ side_of (way self.ringlet self.own table.now self.hops) }
    {
        if self.hops == 0 {
            return None;
        }
        fill_index(index, table, self.ringlet);
        below_failure(self.walk_along(index, table))
    }
}
