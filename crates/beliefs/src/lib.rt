// Four beliefs about the controller that are false, each refuted by operations from a fresh start, computed over the definitions.
// There is no function here; the theorems are in proofs/Beliefs.antt.
// Document 01, "Where earlier filters went wrong" and "Judging".

#![tactic(auto)]
