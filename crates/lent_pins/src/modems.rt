// The modem's end with a table of PINs, both in lent memory. The table's memory is looked at only by
// an entry.
ghost use Rattle.std.specs.Prelude.{◌≡◌};
ghost use Rattle.std.proofs.lemmas.List.Edits.{sets};
ghost use Rattle.lent_modem.specs.LentModem.{modem_bytes};
ghost use Rattle.pin_entry.specs.Meaning.{table_of};
ghost use Rattle.pin_modem.specs.PinModem.{serving_of};
ghost use Rattle.lent_pins.specs.LentModems.{refused_reply, kept_reply, kept_modem, kept_pins, served_in, held_in, receive_in};

use crate::{judge_pins, put_table, table_at};
use lent_modem::{modem_at, put_modem};
use message::MessageHeader;
use modem::{Modem, ModemStage};
use pin_modem::{PinModemAnswer, PinModemStep, is_entry, serve};
use protocol::{Refusal, Verdict};

// What a message is answered, and the stage of the end after it: beside a refusal too, so that no `?` can
// pass one on here.
#[derive(Clone, Copy)]
pub struct PinReply {
    pub answer: Result<PinModemAnswer, Refusal>,
    pub stage: ModemStage,
}

// A received message; the payload of a reply to VERSION, or to an entry, is written into the output.
#[tactic(auto, unfolding(crate::specs::LentModems::receive_in))]
pub fn receive(
    memory: &mut [u8],
    pins: &mut [u8],
    message: MessageHeader,
    information: &[u8],
    out: &mut [u8],
) -> PinReply
    ensures value { result ≡ (receive_in memory.old pins.old message information.now out.old).reply }
    ensures memory_after { memory.new ≡ (receive_in memory.old pins.old message information.now out.old).modem }
    ensures pins_after { pins.new ≡ (receive_in memory.old pins.old message information.now out.old).pins }
    ensures out_after { out.new ≡ (receive_in memory.old pins.old message information.now out.old).output }
{
    match modem_at(memory) {
        Ok(modem) => receive_held(memory, pins, modem, message, information, out),
        Err(refusal) => refused(refusal),
    }
}

// A message to the end that the memory holds.
#[tactic(auto, unfolding(crate::specs::LentModems::held_in))]
fn receive_held(
    memory: &mut [u8],
    pins: &mut [u8],
    modem: Modem,
    message: MessageHeader,
    information: &[u8],
    out: &mut [u8],
) -> PinReply
    ensures value { result ≡ (held_in memory.old pins.old modem message information.now out.old).reply }
    ensures memory_after { memory.new ≡ (held_in memory.old pins.old modem message information.now out.old).modem }
    ensures pins_after { pins.new ≡ (held_in memory.old pins.old modem message information.now out.old).pins }
    ensures out_after { out.new ≡ (held_in memory.old pins.old modem message information.now out.old).output }
{
    let step = modem::receive(modem, message, information, out);
    if is_entry(message, step.answer) {
        return serve_held(memory, pins, modem, step.modem, information, out);
    }
    put_modem(memory, step.modem);
    PinReply {
        answer: step.answer.map(PinModemAnswer::Modem),
        stage: step.modem.stage,
    }
}

// An entry: the end before and after the handshake's rules.
#[tactic(auto, using(crate::proofs::Places::room), unfolding(crate::specs::LentModems::served_in))]
fn serve_held(
    memory: &mut [u8],
    pins: &mut [u8],
    before: Modem,
    after: Modem,
    payload: &[u8],
    out: &mut [u8],
) -> PinReply
    ensures value { result ≡ (served_in memory.old pins.old before after payload.now out.old).reply }
    ensures memory_after { memory.new ≡ (served_in memory.old pins.old before after payload.now out.old).modem }
    ensures pins_after { pins.new ≡ (served_in memory.old pins.old before after payload.now out.old).pins }
    ensures out_after { out.new ≡ (served_in memory.old pins.old before after payload.now out.old).output }
{
    match judge_pins(pins) {
        Ok(()) => {
            let step = serve(before, after, table_at(pins), payload, out);
            keep(memory, pins, step)
        }
        Err(refusal) => refused(refusal),
    }
}

// What an entry left put back, the end unless it was refused and the table where PIN_INFO is written,
// and the answer.
fn keep(memory: &mut [u8], pins: &mut [u8], step: PinModemStep) -> PinReply
    ensures value { result ≡ kept_reply (serving_of step) }
    ensures memory_after { memory.new ≡ kept_modem (serving_of step) memory.old }
    ensures pins_after { pins.new ≡ kept_pins (serving_of step) pins.old }
{
    match step.answer {
        Ok(PinModemAnswer::Modem(_)) => put_modem(memory, step.modem),
        Ok(PinModemAnswer::Pin { .. }) => {
            put_modem(memory, step.modem);
            put_table(pins, step.table);
        }
        Err(_) => {}
    }
    PinReply {
        answer: step.answer,
        stage: step.modem.stage,
    }
}

fn refused(refusal: Refusal) -> PinReply
    ensures { result ≡ refused_reply refusal }
{
    PinReply {
        answer: Err(refusal),
        stage: ModemStage::Start,
    }
}
