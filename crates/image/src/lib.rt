// Images of a receiver: the value, its bytes, and what it says of windows and cells (specs/), and theorems on these (proofs/).

#![tactic(auto)]
