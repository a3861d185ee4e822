#![tactic(auto)]

// How far a replay has come: definitions (specs/) that its loop and its quick way share, and their laws (proofs/).
