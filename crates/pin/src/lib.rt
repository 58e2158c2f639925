// The payloads of CID 4 of Basic Connect: SET_PIN, which a set carries, and PIN_INFO, which answers
// carry. Each has one form at both versions.
#![tactic(auto)]

pub mod pin_info;
pub mod set_pin;
