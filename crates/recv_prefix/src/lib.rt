// The calls over the first of the records, where those after them are unused: definitions (specs/) and theorems (proofs/), no code.

#![tactic(auto)]
