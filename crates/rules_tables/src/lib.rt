#![tactic(auto)]

// No code: what the checker looks up, and laws of it.
