#![tactic(auto)]

// What holds of every map, and no code needs: as definitions (specs/) with their theorems (proofs/).
