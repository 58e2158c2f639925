// modems, exported to C: each function is culvertroost::modems's, with its contract.
ghost use Rattle.std.specs.Prelude.{◌≡◌};
ghost use Rattle.lent_modem.specs.LentModem.{make_in, restart_in, receive_in};
ghost use Rattle.c_structs.specs.Answers.{refusal_of};
ghost use Rattle.culvertroost.specs.Modems.{reply_info};

use c_structs::RefusalInfo;
use c_structs::ends::ModemInfo;
use message::MessageHeader;

#[unsafe(no_mangle)]
pub extern "C" fn cvr_modem_make(
    memory: &mut [u8],
    native: u16,
    advertised: u16,
    services: &[u8],
) -> RefusalInfo
    ensures value { result ≡ refusal_of (make_in memory.old native advertised services.now).verdict }
    ensures memory_after { memory.new ≡ (make_in memory.old native advertised services.now).memory }
{
    culvertroost::modems::cvr_modem_make(memory, native, advertised, services)
}

#[unsafe(no_mangle)]
pub extern "C" fn cvr_modem_open(memory: &mut [u8]) -> RefusalInfo
    ensures value { result ≡ refusal_of (restart_in memory.old).verdict }
    ensures memory_after { memory.new ≡ (restart_in memory.old).memory }
{
    culvertroost::modems::cvr_modem_open(memory)
}

#[unsafe(no_mangle)]
pub extern "C" fn cvr_modem_close(memory: &mut [u8]) -> RefusalInfo
    ensures value { result ≡ refusal_of (restart_in memory.old).verdict }
    ensures memory_after { memory.new ≡ (restart_in memory.old).memory }
{
    culvertroost::modems::cvr_modem_close(memory)
}

#[unsafe(no_mangle)]
pub extern "C" fn cvr_modem_receive(
    memory: &mut [u8],
    message: MessageHeader,
    information: &[u8],
    out: &mut [u8],
) -> ModemInfo
    ensures value { result ≡ reply_info (receive_in memory.old message information.now out.old).reply }
    ensures memory_after { memory.new ≡ (receive_in memory.old message information.now out.old).memory }
    ensures out_after { out.new ≡ (receive_in memory.old message information.now out.old).output }
{
    culvertroost::modems::cvr_modem_receive(memory, message, information, out)
}
