// The purge of a ringlet.
ghost use Rattle.std.specs.Prelude.{◌≡◌};
ghost use Rattle.std.specs.List.{list_any};
ghost use Rattle.stations.specs.Stations.{purged};
ghost use Rattle.stations.specs.Steps.{purgeable};

use crate::station::Station;
use crate::table::Table;

// Some station is changed by a purge: while a span stays down there is none.
fn is_heard(stations: &[Station], ringlet: u8) -> bool
    ensures { result ≡ list_any (purgeable ringlet) stations.now }
{
    stations.iter().any(|s| s.is_purgeable(ringlet))
}

impl Table {
    // All hops of a ringlet become 0, and stations without a hop leave.
    pub fn purge_ringlet(&mut self, ringlet: u8)
        ensures { self.new ≡ purged ringlet self.old }
    {
        if is_heard(self.stations(), ringlet) {
            self.stations.retain(|s| {
                *s = s.with_hop(ringlet, 0);
                s.is_somewhere()
            });
        }
    }
}
