// The assembly in memory that the caller lends. Memory that is too small, or whose numbers are outside
// their tables, is refused.
#![tactic(auto)]

pub mod assembly;
