// Document 01's bare receiver, line and sender's book: definitions (specs/) and theorems (proofs/), no code.

#![tactic(auto)]
