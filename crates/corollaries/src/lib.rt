// What follows of the calls: definitions (specs/) and theorems (proofs/), no code.

#![tactic(auto)]
