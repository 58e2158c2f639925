// What is claimed of streams beside the pieces that the door receives, and of streams in lent memory.
// There is no code here: the claims are in specs/, and their proofs in proofs/.
#![tactic(auto)]
