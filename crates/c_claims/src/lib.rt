// What is claimed of every answer to C beside the promises: its number is 0 exactly where nothing was
// refused. There is no code here.
#![tactic(auto)]
