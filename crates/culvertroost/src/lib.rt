// The functions of the C library, one module a payload or part; crate culvertroost_c exports them. Each is
// total; to C a slice is a pointer and a length, and a struct passes by value in C's layout.
#![tactic(auto)]

pub mod assembly;
pub mod hosts;
pub mod messages;
pub mod modems;
pub mod packets;
pub mod pins;
pub mod quality;
pub mod registrations;
pub mod services;
pub mod signals;
pub mod streams;
pub mod versions;
