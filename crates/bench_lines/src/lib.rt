// Document 01's starred bench lines, one statement, and the three datagrams of its program `trace`, another: statements in specs/, their
// proofs by computation in proofs/, no code.

#![tactic(auto)]
