// pins, exported to C: each function is culvertroost::pins's, with its contract.
ghost use Rattle.std.specs.Prelude.{◌≡◌};
ghost use Rattle.pin.specs.PinInfo as pin_info;
ghost use Rattle.pin.specs.SetPin as set_pin;
ghost use Rattle.lent_pins.specs.LentPins.{make_in, enter_in};
ghost use Rattle.lent_pins.specs.LentModems.{receive_in};
ghost use Rattle.c_structs.specs.Answers.{refusal_of, written_answer};
ghost use Rattle.c_structs.specs.Pins.{set_pin_answer, pin_info_answer, entry_answer};
ghost use Rattle.culvertroost.specs.Pins.{read_chosen, pin_reply_info};

use c_structs::ends::ModemInfo;
use c_structs::pins::{EntryAnswer, PinInfoAnswer, SetPinAnswer};
use c_structs::{RefusalInfo, WrittenAnswer};
use message::MessageHeader;
use pin::pin_info::PinInfo;
use pin::set_pin::SetPin;
use pin_entry::starts::PinStarts;

#[unsafe(no_mangle)]
pub extern "C" fn cvr_set_pin_read(payload: &[u8]) -> SetPinAnswer
    ensures { result ≡ set_pin_answer (set_pin.read_of payload.now) }
{
    culvertroost::pins::cvr_set_pin_read(payload)
}

#[unsafe(no_mangle)]
pub extern "C" fn cvr_set_pin_read_with(zero_size: u32, payload: &[u8]) -> SetPinAnswer
    ensures { result ≡ set_pin_answer (read_chosen zero_size payload.now) }
{
    culvertroost::pins::cvr_set_pin_read_with(zero_size, payload)
}

#[unsafe(no_mangle)]
pub extern "C" fn cvr_set_pin_write(
    info: SetPin,
    pin: &[u8],
    new_pin: &[u8],
    out: &mut [u8],
) -> WrittenAnswer
    ensures value { result ≡ written_answer (set_pin.write_of info pin.now new_pin.now out.old).answer }
    ensures out_after { out.new ≡ (set_pin.write_of info pin.now new_pin.now out.old).output }
{
    culvertroost::pins::cvr_set_pin_write(info, pin, new_pin, out)
}

#[unsafe(no_mangle)]
pub extern "C" fn cvr_pin_info_read(payload: &[u8]) -> PinInfoAnswer
    ensures { result ≡ pin_info_answer (pin_info.read_of payload.now) }
{
    culvertroost::pins::cvr_pin_info_read(payload)
}

#[unsafe(no_mangle)]
pub extern "C" fn cvr_pin_info_write(info: PinInfo, out: &mut [u8]) -> WrittenAnswer
    ensures value { result ≡ written_answer (pin_info.write_of info out.old).answer }
    ensures out_after { out.new ≡ (pin_info.write_of info out.old).output }
{
    culvertroost::pins::cvr_pin_info_write(info, out)
}

#[unsafe(no_mangle)]
pub extern "C" fn cvr_pin_make(memory: &mut [u8], pins: PinStarts) -> RefusalInfo
    ensures value { result ≡ refusal_of (make_in memory.old pins.rows).verdict }
    ensures memory_after { memory.new ≡ (make_in memory.old pins.rows).memory }
{
    culvertroost::pins::cvr_pin_make(memory, pins)
}

#[unsafe(no_mangle)]
pub extern "C" fn cvr_pin_enter(memory: &mut [u8], payload: &[u8]) -> EntryAnswer
    ensures value { result ≡ entry_answer (enter_in memory.old payload.now).answer }
    ensures memory_after { memory.new ≡ (enter_in memory.old payload.now).memory }
{
    culvertroost::pins::cvr_pin_enter(memory, payload)
}

#[unsafe(no_mangle)]
pub extern "C" fn cvr_pin_receive(
    modem: &mut [u8],
    pins: &mut [u8],
    message: MessageHeader,
    information: &[u8],
    out: &mut [u8],
) -> ModemInfo
    ensures value { result ≡ pin_reply_info (receive_in modem.old pins.old message information.now out.old).reply }
    ensures modem_after { modem.new ≡ (receive_in modem.old pins.old message information.now out.old).modem }
    ensures pins_after { pins.new ≡ (receive_in modem.old pins.old message information.now out.old).pins }
    ensures out_after { out.new ≡ (receive_in modem.old pins.old message information.now out.old).output }
{
    culvertroost::pins::cvr_pin_receive(modem, pins, message, information, out)
}
