// The rows of a payload that has a list of entries, SIGNAL_STATE or DEVICE_SERVICES, at any place of
// any output: for an accepted payload a header and a row for each field, those of the entries last,
// for a refused one its line. What has no room is dropped.
#![tactic(auto)]

pub mod services_rows;
pub mod signal_rows;
