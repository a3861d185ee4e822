#![tactic(auto)]

// The C calls of the archive: each public call of crates/nesfoal under its C name, with the same clauses. A static library's own C functions alone
// are in its archive, and no crate can use it, so nothing else stands here.
pub mod cuts;
pub mod effects;
pub mod plans;
pub mod ranges;
pub mod recorded;
pub mod replays;
pub mod runs;
pub mod shadows;
pub mod takings;
pub mod transfers;
pub mod verdicts;
