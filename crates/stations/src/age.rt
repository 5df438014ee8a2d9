// A tick over the table.
ghost use Rattle.std.specs.Prelude.{◌≡◌, filter, map};
ghost use Rattle.std.specs.List.{All, list_all};
ghost use Rattle.stations.specs.Station.{older};
ghost use Rattle.stations.specs.Stations.{young, aged};
ghost use Rattle.stations.specs.Steps.{Young};

use crate::station::Station;
use crate::table::{Places, Table};

// The forget time is near for none of them.
fn are_young(stations: &[Station], forget: u16) -> bool
    ensures { result ≡ list_all (young forget) stations.now }
{
    stations.iter().all(|s| s.is_young(forget))
}

// Stations whose age would reach the forget time leave, and the others close up. Nothing is moved before somebody leaves.
#[tactic(auto, using(crate::proofs::Retaining::all_stay))]
fn drop_old(stations: &mut Places, forget: u16)
    ensures { stations.new.items ≡ filter (young forget) stations.old.items }
{
    if !are_young(stations.as_slice(), forget) {
        stations.retain(|s| s.is_young(forget));
    }
}

// Every age one higher.
#[tactic(auto, using(crate::proofs::Retaining::young_here))]
fn raise_all(stations: &mut [Station])
    requires { All Young stations.old }
    ensures { stations.new ≡ map older stations.old }
{
    for s in stations {
        s.age += 1;
    }
}

impl Table {
    // Every age one higher; a station whose age reaches the forget time leaves.
    pub fn raise_ages(&mut self, forget: u16)
        ensures { self.new ≡ aged forget self.old }
    {
        drop_old(&mut self.stations, forget);
        raise_all(self.stations.as_mut_slice());
    }
}
