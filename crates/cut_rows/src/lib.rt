#![tactic(auto)]

// Rows of arcs by place: definitions (specs/) that the index and the passes over it share, and laws of rows and of the input arcs of a transition (proofs/).
