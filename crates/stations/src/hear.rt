// A report heard, steps (d), (e) and what follows them. What is refused is decided before anything is changed.
ghost use Rattle.std.specs.Prelude.{◌≡◌, true, None, Some, slice_index_or};
ghost use Rattle.std.specs.List.{position};
ghost use Rattle.stations.specs.Station.{is_hop};
ghost use Rattle.stations.specs.Stations.{displaced};
ghost use Rattle.stations.specs.Hearing.{distance, left, placed_any, placed_new, placed_known};
ghost use Rattle.stations.specs.Steps.{at_hop, Alone};
ghost use Rattle.stations.specs.Table.{blank, found};

use crate::shift::{insert_at, remove_at};
use crate::station::{Report, Station, distance};
use crate::table::{Places, Table, rank};
use wire::{Refusal, Taken};

// Distances above it are those of old reports.
const LAST_NEWER: u8 = 128;

// The place of the station at the report's hop.
fn holder(stations: &[Station], p: Report) -> Option<usize>
    ensures { result ≡ position (at_hop p) stations.now }
{
    stations.iter().position(|s| s.hop(p.ringlet) == p.hop)
}

// Step (e). No two stations share a hop, so that one alone may be another at the report's hop: it loses that hop, and leaves if it has none left.
// It takes the places, not the table: a known station is renewed first, and may share its hop until this is done.
fn displace_others(stations: &mut Places, other: Option<usize>, p: Report)
    requires { Alone p other stations.old.items }
    ensures { stations.new.items ≡ displaced p stations.old.items }
{
    let Some(at) = other else {
        return;
    };
    let s = stations.as_slice()[at];
    if s.is_other(p) {
        let without = s.with_hop(p.ringlet, 0);
        if without.is_somewhere() {
            stations.as_mut_slice()[at] = without;
        } else {
            remove_at(stations, at);
        }
    }
}

impl Table {
    ghost use Rattle.stations.specs.Table.{blank, found};

    // A new station: once the one at its hop has given way there is a place.
    fn hear_new(&mut self, p: Report)
        requires hop { is_hop p.hop ≡ true }
        requires unknown { found p.address self.old ≡ None }
        ensures { self.new ≡ (placed_new p self.old).stations }
    {
        let there = holder(self.stations(), p);
        displace_others(&mut self.stations, there, p);
        let at = rank(self.stations.as_slice(), p.address);
        insert_at(&mut self.stations, at, Station::join(p));
    }

    // A known station: an old report changes nothing; else the others at its hop give way.
    #[tactic(auto, using(crate::proofs::Places::found_inside))]
    fn hear_known(&mut self, at: usize, p: Report) -> Taken
        requires hop { is_hop p.hop ≡ true }
        requires known { found p.address self.old ≡ Some at }
        ensures { left self.new (Ok result) ≡ placed_known (distance p.sequence (slice_index_or self.old at blank).sequence) p self.old }
    {
        let known = self.stations()[at];
        let d = distance(p.sequence, known.sequence);
        if LAST_NEWER < d {
            return Taken::OldReport;
        }
        let other = holder(self.stations(), p);
        self.stations.as_mut_slice()[at] = known.hear_again(p, d);
        displace_others(&mut self.stations, other, p);
        Taken::Stored
    }

    // The result of any report, and the stations after it. One at a hop outside 1 to 63 could need a 127th place.
    #[tactic(auto, using(crate::proofs::Places::placed_at, crate::proofs::Places::placed_nowhere), unfolding(crate::specs::Hearing::placed_any))]
    pub fn hear_report(&mut self, p: Report) -> Result<Taken, Refusal>
        ensures { left self.new result ≡ placed_any p self.old }
    {
        if !p.is_at_hop() {
            return Err(Refusal::HopTooHigh);
        }
        match self.find_station(p.address) {
            Some(at) => Ok(self.hear_known(at, p)),
            None => {
                self.hear_new(p);
                Ok(Taken::Stored)
            }
        }
    }
}
