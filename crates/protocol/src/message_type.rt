// The message types of MBIM 1.0, and which are whole messages and which are fragmented.
ghost use Rattle.std.specs.Prelude.{◌≡◌};
ghost use Rattle.protocol.specs.MessageType.{is_whole, is_fragmented};

// Numbers and no enum: a header may have any type, from the line or from C, and what it is not is a refusal
// (`is_whole`, `is_fragmented`).
pub const OPEN: u32 = 1;

pub const CLOSE: u32 = 2;

pub const COMMAND: u32 = 3;

pub const HOST_ERROR: u32 = 4;

pub const OPEN_DONE: u32 = 0x80000001;

pub const CLOSE_DONE: u32 = 0x80000002;

pub const COMMAND_DONE: u32 = 0x80000003;

pub const FUNCTION_ERROR: u32 = 0x80000004;

pub const INDICATE_STATUS: u32 = 0x80000007;

// The types of a COMMAND.
pub const QUERY: u32 = 0;

pub const SET: u32 = 1;

#[tactic(auto, unfolding(crate::specs::MessageType::is_whole))]
pub fn is_whole(message_type: u32) -> bool
    ensures { result ≡ is_whole message_type }
{
    match message_type {
        OPEN => true,
        CLOSE => true,
        HOST_ERROR => true,
        OPEN_DONE => true,
        CLOSE_DONE => true,
        FUNCTION_ERROR => true,
        _ => false,
    }
}

#[tactic(auto, unfolding(crate::specs::MessageType::is_fragmented))]
pub fn is_fragmented(message_type: u32) -> bool
    ensures { result ≡ is_fragmented message_type }
{
    match message_type {
        COMMAND => true,
        COMMAND_DONE => true,
        INDICATE_STATUS => true,
        _ => false,
    }
}
