// The station table: a report heard, ages, the purge of a ringlet, attributes.
// Follows 01, section Stations.
// Stands on blocks and wire.
#![tactic(auto)]

mod age;
mod hear;
mod purge;
mod shift;
mod station;
mod table;

pub use station::{FARTHEST_HOP, Report, Station, side};
pub use table::{PLACES, Table};
