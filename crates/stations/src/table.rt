// The stations that are known, in ascending order of their addresses, in a table of a fixed size.
ghost use Rattle.std.specs.Prelude.{◌≡◌, [], ⊤, length, slice_index_or, slice_set};
ghost use Rattle.stations.specs.Station.{with_attributes};
ghost use Rattle.stations.specs.Steps.{rank_of};
ghost use Rattle.stations.specs.Table.{Ascending};

use crate::station::Station;
use arrayvec::ArrayVec;
use blocks::Attributes;
use std::alloc::AllocError;
use std::marker::Model;

// The most stations: one for each hop of each ringlet.
pub const PLACES: usize = 126;

pub(crate) type Places = ArrayVec<Station, PLACES>;

#[derive(Drop)]
pub struct Table {
    pub(crate) stations: Places,
}

impl Model for Table {
    ghost use Rattle.std.specs.Prelude.{List};
    ghost use Rattle.stations.specs.declared.station.Station.{Station};

    ghost Value = { List Station };

    ghost use Rattle.stations.specs.Table.{TableKept};

    ghost view = { λ t. t.stations.items };

    ghost invariant = { λ t. TableKept t.stations.items };
}

// A copy of the table as it is; it never fails. The places are an `ArrayVec`, which is no `Copy`, so a table is none.
impl Clone for Table {
    ghost is_clone = { λ t u. u ≡ t };

    ghost is_infallible = { λ _. ⊤ };

    fn clone(&self) -> Result<Table, AllocError> {
        Ok(Table {
            stations: self.stations.clone()?,
        })
    }
}

impl Table {
    ghost use Rattle.stations.specs.Table.{blank, found, TableKept};

    // No stations.
    #[tactic(auto, using(crate::proofs::Tables::empty_table))]
    pub fn new() -> Table
        ensures { result ≡ [] }
    {
        Table {
            stations: ArrayVec::new(),
        }
    }

    // No stations, whatever there were.
    #[tactic(auto, using(crate::proofs::Tables::empty_table))]
    pub fn clear(&mut self)
        ensures { self.new ≡ [] }
    {
        self.stations.clear();
    }

    // The stations.
    pub fn stations(&self) -> &[Station]
        ensures stations { result.now ≡ self.now }
        ensures kept { TableKept self.now }
    {
        self.stations.as_slice()
    }

    // The number of stations.
    pub fn station_count(&self) -> usize
        ensures { result ≡ length self.now }
    {
        self.stations.len()
    }

    // The station at a place; a place that is not in use is blank.
    #[tactic(auto, unfolding(crate::specs::Table::blank))]
    pub fn station_at(&self, at: usize) -> Station
        ensures { result ≡ slice_index_or self.now at blank }
    {
        self.stations
            .as_slice()
            .get(at)
            .copied()
            .unwrap_or_default()
    }

    // The place of the station of an address.
    pub fn find_station(&self, address: u64) -> Option<usize>
        ensures found { result ≡ found address self.now }
        ensures kept { TableKept self.now }
    {
        let stations = self.stations();
        let at = rank(stations, address);
        match stations.get(at) {
            Some(s) if s.address == address => Some(at),
            _ => None,
        }
    }

    // The attributes of the station at a place replaced; a place that is not in use stays as it is.
    #[tactic(auto, using(crate::proofs::Tables::stored_table, crate::proofs::Retaining::stored), unfolding(crate::specs::Table::blank))]
    pub fn give_attributes(&mut self, at: usize, x: Attributes)
        ensures { self.new ≡ slice_set self.old at (with_attributes x (slice_index_or self.old at blank)) }
    {
        if at < self.stations.len() {
            let stations = self.stations.as_mut_slice();
            stations[at] = stations[at].with_attributes(x);
        }
    }
}

// How many stations stand before the place of an address. The table is in ascending order, so it is found by halves: a step costs 8 instructions here and 11 in the library's
// `partition_point`, and who asks for a way waits for it.
pub(crate) fn rank(stations: &[Station], address: u64) -> usize
    requires { Ascending stations.now }
    ensures { result ≡ rank_of address stations.now }
{
    let mut low = 0;
    let mut high = stations.len();
    while low < high {
        let middle = (low + high) / 2;
        if stations[middle].address < address {
            low = middle + 1;
        } else {
            high = middle;
        }
    }
    low
}
