#![tactic(auto)]

// The bytes of a plan file and of a slice file: definitions (specs/) that the writers' contracts cite, and the theorems that they read back (proofs/).
