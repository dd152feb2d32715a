#![tactic(auto)]

// The files and texts of the documents as definitions (specs/) with their laws (proofs/).
