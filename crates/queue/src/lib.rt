// The theory of queues: a queue as the list of its descriptors, all of them by number, what a sound book says of them, and what the
// release, the chain check, a store and a mark make of them; and what a whole guard call therefore leaves: on a sound book, a sound book.
// Definitions (specs/) and theorems (proofs/) over the definitions of the crates below; there is nothing to run here. It serves demand 3:
// right in every order of events.

#![tactic(auto)]
