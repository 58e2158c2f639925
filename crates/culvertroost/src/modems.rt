// The modem's end, for C, in memory that the caller lends.
ghost use Rattle.std.specs.Prelude.{◌≡◌};
ghost use Rattle.lent_modem.specs.LentModem.{make_in, restart_in, receive_in};
ghost use Rattle.c_structs.specs.Answers.{refusal_of};
ghost use Rattle.culvertroost.specs.Modems.{reply_info};

use c_structs::RefusalInfo;
use c_structs::ends::{ModemInfo, modem_info};
use lent_modem::{close, make, open, receive};
use message::MessageHeader;

pub fn cvr_modem_make(
    memory: &mut [u8],
    native: u16,
    advertised: u16,
    services: &[u8],
) -> RefusalInfo
    ensures value { result ≡ refusal_of (make_in memory.old native advertised services.now).verdict }
    ensures memory_after { memory.new ≡ (make_in memory.old native advertised services.now).memory }
{
    RefusalInfo::from(make(memory, native, advertised, services))
}

pub fn cvr_modem_open(memory: &mut [u8]) -> RefusalInfo
    ensures value { result ≡ refusal_of (restart_in memory.old).verdict }
    ensures memory_after { memory.new ≡ (restart_in memory.old).memory }
{
    RefusalInfo::from(open(memory))
}

pub fn cvr_modem_close(memory: &mut [u8]) -> RefusalInfo
    ensures value { result ≡ refusal_of (restart_in memory.old).verdict }
    ensures memory_after { memory.new ≡ (restart_in memory.old).memory }
{
    RefusalInfo::from(close(memory))
}

pub fn cvr_modem_receive(
    memory: &mut [u8],
    message: MessageHeader,
    information: &[u8],
    out: &mut [u8],
) -> ModemInfo
    ensures value { result ≡ reply_info (receive_in memory.old message information.now out.old).reply }
    ensures memory_after { memory.new ≡ (receive_in memory.old message information.now out.old).memory }
    ensures out_after { out.new ≡ (receive_in memory.old message information.now out.old).output }
{
    let reply = receive(memory, message, information, out);
    modem_info(reply.answer, reply.stage)
}
