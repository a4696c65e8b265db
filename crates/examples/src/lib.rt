// Random examples of the definitions, no code: frames as values on the receiver with cells and in the line (proofs/Cells.antt), bytes
// through lists of calls, drops among them (proofs/Bytes.antt), receivers saved, and images restored or refused (proofs/Images.antt), sound
// and unsound cells (proofs/Sound.antt), sound and unsound values of a receiver's own (proofs/Values.antt). What every call is told and
// what stands after it comes from a model in plain Rust (folder model/), written from the documents and not from the definitions (images by
// a hand that had read these); here the definitions are computed and must agree. `model/build.sh` builds the model, `target/model/model
// examples cells 28 20` prints Cells.antt (bytes 28 12, images 30 4, sound 28 20 and values 28 6 the others), and `model/examples.sh SEED
// N` checks as many others as one likes.

#![tactic(auto)]
