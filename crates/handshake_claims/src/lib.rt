// What is claimed of the two ends over any calls and over a run of both. There is no code here.
#![tactic(auto)]
