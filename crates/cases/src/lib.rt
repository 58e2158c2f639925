// The cases of document 01 that are marked P. There is no code here: the list is in specs/Cases, and
// the one statement over it is proved in proofs/Worked.
#![tactic(auto)]
