#![tactic(auto)]

// The net that a text in PNML names. All of this crate is definitions (specs/) and theorems (proofs/).
