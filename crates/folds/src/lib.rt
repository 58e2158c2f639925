// What is gathered over the numbers below a count, in the form that loops ask for. Definitions and
// laws only; no code.
#![tactic(auto)]
