// The rows of a payload without a list, PACKET_SERVICE, VERSION, REGISTER_STATE, SET_PIN or PIN_INFO,
// at any place of any output: for an accepted payload a header and a row for each field, in the
// payload's order, for a refused one its line. What has no room is dropped. (Payloads with a list:
// `entry_rows`.)
#![tactic(auto)]

pub mod packet_rows;
pub mod pin_info_rows;
mod range_rows;
pub mod registration_rows;
pub mod set_pin_rows;
pub mod version_rows;
