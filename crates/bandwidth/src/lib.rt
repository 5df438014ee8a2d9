// What is left of each ringlet, for the replication planner.
// Follows 02, Item 1.
// Stands on controller and stations.
#![tactic(auto)]

mod free;
mod sums;

pub use free::{Free, Unanswered, free_bandwidth};
