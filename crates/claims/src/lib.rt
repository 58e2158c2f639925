// Demand 3 about whole runs. There is no code here: the claim is in specs/Transfer, and its proof in
// proofs/Transferred. In running code, `exchange::pass` cuts a message and feeds it.
#![tactic(auto)]
