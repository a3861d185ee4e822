#![tactic(auto)]

// Replay, the cuts and the check from a lent marking. No copy of the file is made: each reads the marking where the plain call reads the file's own.
pub mod cuts;
pub mod replays;
pub mod verdicts;
