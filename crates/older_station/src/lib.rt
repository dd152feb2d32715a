#![tactic(auto)]

// What an older station answers to a file beside a newer one (document 02, §6), as definitions (specs/) with their law (proofs/).
