// What is claimed of state in lent memory over whole runs of calls, and which memory is taken. There is
// no code here: the claims are in specs/, and their proofs in proofs/.
#![tactic(auto)]
