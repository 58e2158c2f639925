// The statuses of a COMMAND_DONE that are given or looked at here; MBIM 1.0 has more.
pub const SUCCESS: u32 = 0;

pub const FAILURE: u32 = 2;

pub const NO_DEVICE_SUPPORT: u32 = 9;
