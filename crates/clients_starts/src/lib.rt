#![tactic(auto)]

// What programs do with the calls from a lent marking. Each function calls public calls alone, and what it ensures follows from their contracts:
// were one of those weaker, the proof here would fail.
pub mod changes;
pub mod cuts;
pub mod own;
pub mod parts;
