#![tactic(auto)]

// What follows of every list of calls from a new graph, as definitions (specs/) with their theorems (proofs/).
