#![tactic(auto)]

// The code's steps read a text as the profile says. All of this crate is theorems (proofs/).
