// The writers again, with the promise that what they write reads back. The theorems of a round trip
// ask that each number of a record is of its width; of a record that a program holds this is so, and
// here nothing is asked.
#![tactic(auto)]

ghost use Rattle.std.specs.Prelude.{◌≡◌};
ghost use Rattle.packet_service.specs.PacketService.{write_of as packet_written};
ghost use Rattle.registration.specs.Registration.{write_of as registration_written};
ghost use Rattle.signal_state.specs.SignalState.{write_of as signal_written};
ghost use Rattle.pin.specs.SetPin.{write_of as set_pin_written};
ghost use Rattle.pin.specs.PinInfo.{write_of as pin_info_written};
ghost use Rattle.round_trips.specs.Back.{PacketBack, RegistrationBack, SignalBack, SetPinBack, PinInfoBack};

use packet_service::PacketService;
use pin::pin_info::PinInfo;
use pin::set_pin::SetPin;
use pin::{pin_info, set_pin};
use protocol::Written;
use registration::Registration;
use signal_state::{RsrpSnr, SignalState};

#[tactic(auto, using(crate::proofs::Returned::packet_returned, crate::proofs::Owned::packet_of_width))]
pub fn write_packet_service(info: PacketService, out: &mut [u8]) -> Written
    ensures value { result ≡ (packet_written info out.old).answer }
    ensures out_after { out.new ≡ (packet_written info out.old).output }
    ensures packet_back { PacketBack result info out.new }
{
    packet_service::write(info, out)
}

#[tactic(auto, using(crate::proofs::Returned::registration_returned, crate::proofs::Owned::registration_of_width))]
pub fn write_registration(
    info: Registration,
    provider_id: &[u8],
    provider_name: &[u8],
    roaming_text: &[u8],
    out: &mut [u8],
) -> Written
    ensures value { result ≡ (registration_written info provider_id.now provider_name.now roaming_text.now out.old).answer }
    ensures out_after { out.new ≡ (registration_written info provider_id.now provider_name.now roaming_text.now out.old).output }
    ensures registration_back { RegistrationBack result info provider_id.now provider_name.now roaming_text.now out.new }
{
    registration_writer::write(info, provider_id, provider_name, roaming_text, out)
}

#[tactic(auto, using(crate::proofs::Returned::signal_returned, crate::proofs::Owned::signal_of_width, crate::proofs::Owned::entries_of_width))]
pub fn write_signal_state(info: SignalState, entries: [RsrpSnr; 16], out: &mut [u8]) -> Written
    ensures value { result ≡ (signal_written info entries out.old).answer }
    ensures out_after { out.new ≡ (signal_written info entries out.old).output }
    ensures signal_back { SignalBack result info entries out.new }
{
    signal_writer::write(info, entries, out)
}

#[tactic(auto, using(crate::proofs::Returned::set_pin_returned, crate::proofs::Owned::set_pin_of_width))]
pub fn write_set_pin(info: SetPin, pin: &[u8], new_pin: &[u8], out: &mut [u8]) -> Written
    ensures value { result ≡ (set_pin_written info pin.now new_pin.now out.old).answer }
    ensures out_after { out.new ≡ (set_pin_written info pin.now new_pin.now out.old).output }
    ensures set_pin_back { SetPinBack result info pin.now new_pin.now out.new }
{
    set_pin::write(info, pin, new_pin, out)
}

#[tactic(auto, using(crate::proofs::Returned::pin_info_returned, crate::proofs::Owned::pin_info_of_width))]
pub fn write_pin_info(info: PinInfo, out: &mut [u8]) -> Written
    ensures value { result ≡ (pin_info_written info out.old).answer }
    ensures out_after { out.new ≡ (pin_info_written info out.old).output }
    ensures pin_info_back { PinInfoBack result info out.new }
{
    pin_info::write(info, out)
}
