// Runs of the controller for a benchmark to call: a ring laid out, then one record or one question many times.
// Follows no section of 01; every number that comes back is what the controller's own definitions give.
// Stands on bandwidth, controller, ways and stations.
#![tactic(auto)]

mod exports;
mod records;
mod ring;
mod runs;

pub use exports::{
    bench_attributes, bench_free, bench_node, bench_record, bench_setup, bench_steer, bench_ticks,
};
