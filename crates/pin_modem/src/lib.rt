// The modem's end with a table of PINs: a set of CID 4 that the handshake lets through is an entry.
// Everything else is as the modem's end answers it.
#![tactic(auto)]

ghost use Rattle.std.specs.Prelude.{◌≡◌, Ok};
ghost use Rattle.pin_entry.specs.Meaning.{table_of};
ghost use Rattle.modem.specs.declared.ModemAnswer.TheVariants.{Failed};
ghost use Rattle.pin_modem.specs.PinModem.{is_entry, serving, serving_of, serve_of, receive_of};
ghost use Rattle.pin_modem.specs.declared.PinModemAnswer.TheVariants.{Modem as AsModem};

use message::MessageHeader;
use modem::{Modem, ModemAnswer};
use pin::pin_info;
use pin_entry::{PinAnswer, PinTable, enter};
use protocol::Refusal;
use protocol::message_type::SET;
use protocol::service::Kind;
use protocol::status::NO_DEVICE_SUPPORT;

// What a message is answered.
#[derive(Clone, Copy)]
pub enum PinModemAnswer {
    // As the modem's end answers it.
    Modem(ModemAnswer),
    // An entry: a status with as many bytes of PIN_INFO at the front of the output.
    Pin { status: u32, length: usize },
}

// The end and the table after a message, and the answer.
#[derive(Clone, Copy)]
pub struct PinModemStep {
    pub modem: Modem,
    pub table: PinTable,
    pub answer: Result<PinModemAnswer, Refusal>,
}

// A received message, which is to be a COMMAND of a transaction. Where it is refused, end and table
// stay as they were.
#[tactic(auto, unfolding(crate::specs::PinModem::receive_of))]
pub fn receive(
    modem: Modem,
    table: PinTable,
    message: MessageHeader,
    information: &[u8],
    out: &mut [u8],
) -> PinModemStep
    ensures result_value { serving_of result ≡ (receive_of modem (table_of table) message information.now out.old).serving }
    ensures out_after { out.new ≡ (receive_of modem (table_of table) message information.now out.old).output }
{
    let step = modem::receive(modem, message, information, out);
    if is_entry(message, step.answer) {
        return serve(modem, step.modem, table, information, out);
    }
    PinModemStep {
        modem: step.modem,
        table,
        answer: step.answer.map(PinModemAnswer::Modem),
    }
}

// Whether a message that the modem's end answers so is an entry.
#[tactic(auto, unfolding(crate::specs::PinModem::is_entry))]
pub fn is_entry(message: MessageHeader, answer: Result<ModemAnswer, Refusal>) -> bool
    ensures { result ≡ is_entry message answer }
{
    message.word == SET && matches!(answer, Ok(ModemAnswer::Serve(Kind::PinInfo)))
}

// An entry: the end before and after the handshake's rules, the table and the payload.
#[tactic(auto, unfolding(crate::specs::PinModem::serve_of, crate::specs::PinModem::serve_by, crate::specs::PinModem::reply_of))]
pub fn serve(
    before: Modem,
    after: Modem,
    table: PinTable,
    payload: &[u8],
    out: &mut [u8],
) -> PinModemStep
    ensures result_value { serving_of result ≡ (serve_of before after (table_of table) payload.now out.old).serving }
    ensures out_after { out.new ≡ (serve_of before after (table_of table) payload.now out.old).output }
{
    let entered = enter(table, payload);
    match entered.answer {
        Ok(PinAnswer::Info { status, info }) => match pin_info::write(info, out) {
            Ok(length) => PinModemStep {
                modem: after,
                table: entered.table,
                answer: Ok(PinModemAnswer::Pin { status, length }),
            },
            Err(refusal) => PinModemStep {
                modem: before,
                table,
                answer: Err(refusal),
            },
        },
        Ok(PinAnswer::Failed(status)) => failed(after, entered.table, status),
        Err(_) => failed(after, entered.table, NO_DEVICE_SUPPORT),
    }
}

// A status without a payload.
fn failed(modem: Modem, table: PinTable, status: u32) -> PinModemStep
    ensures { serving_of result ≡ serving modem (table_of table) (Ok (AsModem (Failed status))) }
{
    PinModemStep {
        modem,
        table,
        answer: Ok(PinModemAnswer::Modem(ModemAnswer::Failed(status))),
    }
}
