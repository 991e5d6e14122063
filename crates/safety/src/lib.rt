// Demand 3: guard and controller together, from a fresh start through any sequence of operations.
// Promises: the controller never becomes undefined; it reads only blocks of Linux, stores only into Linux data, and changes only
// descriptor words in use. The statement is in specs/Statement.antt, its proof in proofs/Always.antt over the invariant of
// proofs/Inv.antt. There is no code here.
// Document 01, "Judging" and "The controller's steps".

#![tactic(auto)]
