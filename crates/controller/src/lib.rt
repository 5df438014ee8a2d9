// The controller of a vault node: start, one record at a time, and what may be asked between records.
// Follows 01, sections Records, Numbers returned for a record and The way to a station.
// Stands on wire, settings, spans, pacer, blocks, stations and ways.
#![tactic(auto)]

mod ask;
mod close;
mod judge;
mod node;
mod reading;
mod record;
mod sides;

pub use node::Node;
pub use record::Returned;
pub use sides::Spans;
