// The host's end, for C, in memory that the caller lends.
ghost use Rattle.std.specs.Prelude.{◌≡◌};
ghost use Rattle.lent_host.specs.LentHost.{make_in, open_in, close_in, receive_in, ask_in};
ghost use Rattle.c_structs.specs.Answers.{refusal_of};
ghost use Rattle.c_structs.specs.Ends.{host_info, ask_info};

use c_structs::RefusalInfo;
use c_structs::ends::{AskInfo, HostInfo};
use lent_host::{close, make, next_command, open, receive};
use message::MessageHeader;

pub fn cvr_host_make(memory: &mut [u8], native: u16) -> RefusalInfo
    ensures value { result ≡ refusal_of (make_in memory.old native).verdict }
    ensures memory_after { memory.new ≡ (make_in memory.old native).memory }
{
    RefusalInfo::from(make(memory, native))
}

pub fn cvr_host_open(memory: &mut [u8], advertised: u16) -> HostInfo
    ensures value { result ≡ host_info (open_in memory.old advertised).answer }
    ensures memory_after { memory.new ≡ (open_in memory.old advertised).memory }
{
    HostInfo::from(open(memory, advertised))
}

pub fn cvr_host_close(memory: &mut [u8]) -> HostInfo
    ensures value { result ≡ host_info (close_in memory.old).answer }
    ensures memory_after { memory.new ≡ (close_in memory.old).memory }
{
    HostInfo::from(close(memory))
}

pub fn cvr_host_next_command(memory: &[u8], out: &mut [u8]) -> AskInfo
    ensures value { result ≡ ask_info (ask_in memory.now out.old).answer }
    ensures out_after { out.new ≡ (ask_in memory.now out.old).output }
{
    AskInfo::from(next_command(memory, out))
}

pub fn cvr_host_receive(memory: &mut [u8], message: MessageHeader, information: &[u8]) -> HostInfo
    ensures value { result ≡ host_info (receive_in memory.old message information.now).answer }
    ensures memory_after { memory.new ≡ (receive_in memory.old message information.now).memory }
{
    HostInfo::from(receive(memory, message, information))
}
