// Stations move inside the table: up by one place for one that comes, down by one for one that leaves. Each hands its place on, so that there need be room for one station alone:
// the library's `insert` and `remove` turn the places through 4 KiB of stack.
ghost use Rattle.std.specs.Prelude.{◌≡◌, ◌<◌, ◌≤◌, [], ◌∷◌, ◌++◌, length, insert, remove};
ghost use Rattle.stations.specs.Stations.{capacity};

use crate::station::Station;
use crate::table::Places;
use std::mem;

// Each place takes the station of the one before it, the first a given one; the last one's is handed back.
fn hand_up(places: &mut [Station], s: Station) -> Station
    ensures { places.new ++ (result ∷ []) ≡ s ∷ places.old }
{
    let mut moved = s;
    for place in places {
        moved = mem::replace(place, moved);
    }
    moved
}

// Each place takes the station of the one behind it, the last a given one; the first one's is handed back.
fn hand_down(places: &mut [Station], s: Station) -> Station
    ensures { result ∷ places.new ≡ places.old ++ (s ∷ []) }
{
    let mut moved = s;
    for i in (0..places.len()).rev() {
        moved = mem::replace(&mut places[i], moved);
    }
    moved
}

// A station put in at a place: those from there on move up.
pub(crate) fn insert_at(stations: &mut Places, at: usize, s: Station)
    requires place { at ≤ length stations.old.items }
    requires room { length stations.old.items < capacity }
    ensures { stations.new.items ≡ insert stations.old.items at s }
{
    let last = hand_up(&mut stations.as_mut_slice()[at..], s);
    stations.push(last);
}

// The station at a place leaves: those behind it move down, and the last place is given up.
pub(crate) fn remove_at(stations: &mut Places, at: usize)
    requires { at < length stations.old.items }
    ensures { stations.new.items ≡ remove stations.old.items at }
{
    let last = stations.len() - 1;
    // Made of its fields, so that the one handed on stays in registers: as a whole it went through memory, at twice the instructions.
    let blank = Station {
        address: 0,
        ..Station::default()
    };
    hand_down(&mut stations.as_mut_slice()[at..], blank);
    stations.truncate(last);
}
