// The static library: culvertroost's functions under their names, for C.
#![tactic(auto)]

pub mod assembly;
pub mod hosts;
pub mod messages;
pub mod modems;
pub mod packets;
pub mod pins;
pub mod quality;
pub mod registrations;
pub mod services;
pub mod signals;
pub mod streams;
pub mod versions;
