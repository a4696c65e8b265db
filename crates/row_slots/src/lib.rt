// What rows mean: slots, with bodies in the store or in the datagram that is worked on: definitions (specs/) and theorems (proofs/), no
// code.

#![tactic(auto)]
