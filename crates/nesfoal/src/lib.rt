#![tactic(auto)]

// The C interface: each public call of the crates call_* with its answer as numbers. crates/nesfoal_c exports each of them to C under its name.
pub mod cuts;
pub mod effects;
pub mod plans;
pub mod ranges;
pub mod recorded;
pub mod replays;
pub mod runs;
pub mod shadows;
pub mod takings;
pub mod transfers;
pub mod verdicts;
