// The answers about PINs in C's layout. No answer holds a secret.
ghost use Rattle.std.specs.Prelude.{◌≡◌};
ghost use Rattle.c_structs.specs.Pins.{no_set_pin, no_texts, set_pin_answer, no_info, pin_info_answer, entry_by, entry_answer, pin_modem_info};

use crate::ends::{ModemInfo, modem_info};
use crate::{RefusalInfo, no_refusal};
use modem::{ModemStage, settled_number};
use pairs::Range;
use pin::pin_info::PinInfo;
use pin::set_pin::{SetPin, SetPinTexts};
use pin_entry::PinAnswer;
use pin_modem::PinModemAnswer;
use protocol::Refusal;

#[repr(C)]
#[derive(Clone, Copy)]
pub struct SetPinAnswer {
    pub refusal: RefusalInfo,
    pub info: SetPin,
    pub texts: SetPinTexts,
}

#[repr(C)]
#[derive(Clone, Copy)]
pub struct PinInfoAnswer {
    pub refusal: RefusalInfo,
    pub info: PinInfo,
}

// What an entry is answered: a status, and whether PIN_INFO is shown with it, 1 or 0.
#[repr(C)]
#[derive(Clone, Copy)]
pub struct EntryAnswer {
    pub refusal: RefusalInfo,
    pub status: u32,
    pub shown: u32,
    pub info: PinInfo,
}

impl From<Result<(SetPin, SetPinTexts), Refusal>> for SetPinAnswer {
    #[tactic(auto, unfolding(crate::specs::Pins::set_pin_answer))]
    fn from(read: Result<(SetPin, SetPinTexts), Refusal>) -> SetPinAnswer
        ensures { result ≡ set_pin_answer read }
    {
        match read {
            Ok((info, texts)) => SetPinAnswer {
                refusal: no_refusal(),
                info,
                texts,
            },
            Err(refusal) => SetPinAnswer {
                refusal: RefusalInfo::from(refusal),
                info: no_set_pin(),
                texts: no_texts(),
            },
        }
    }
}

impl From<Result<PinInfo, Refusal>> for PinInfoAnswer {
    #[tactic(auto, unfolding(crate::specs::Pins::pin_info_answer))]
    fn from(read: Result<PinInfo, Refusal>) -> PinInfoAnswer
        ensures { result ≡ pin_info_answer read }
    {
        match read {
            Ok(info) => PinInfoAnswer {
                refusal: no_refusal(),
                info,
            },
            Err(refusal) => PinInfoAnswer {
                refusal: RefusalInfo::from(refusal),
                info: no_info(),
            },
        }
    }
}

impl From<Result<PinAnswer, Refusal>> for EntryAnswer {
    #[tactic(auto, unfolding(crate::specs::Pins::entry_answer))]
    fn from(answer: Result<PinAnswer, Refusal>) -> EntryAnswer
        ensures { result ≡ entry_answer answer }
    {
        match answer {
            Ok(PinAnswer::Info { status, info }) => EntryAnswer {
                refusal: no_refusal(),
                status,
                shown: 1,
                info,
            },
            Ok(PinAnswer::Failed(status)) => plain_entry(no_refusal(), status),
            Err(refusal) => plain_entry(RefusalInfo::from(refusal), 0),
        }
    }
}

// An answer without PIN_INFO.
fn plain_entry(refusal: RefusalInfo, status: u32) -> EntryAnswer
    ensures { result ≡ entry_by refusal status }
{
    EntryAnswer {
        refusal,
        status,
        shown: 0,
        info: no_info(),
    }
}

// What a message is answered, by an end that is then at the stage: 5 is an entry, with the status and
// so many payload bytes.
#[tactic(auto, unfolding(crate::specs::Pins::pin_modem_info, crate::specs::Ends::modem_info))]
pub fn pin_modem_info(answer: Result<PinModemAnswer, Refusal>, stage: ModemStage) -> ModemInfo
    ensures { result ≡ pin_modem_info answer stage }
{
    match answer {
        Ok(PinModemAnswer::Modem(plain)) => modem_info(Ok(plain), stage),
        Ok(PinModemAnswer::Pin { status, length }) => ModemInfo {
            refusal: no_refusal(),
            action: 5,
            status,
            kind: 0,
            version: settled_number(stage),
            place: 0,
            length,
        },
        Err(refusal) => modem_info(Err(refusal), stage),
    }
}

fn no_set_pin() -> SetPin
    ensures { result ≡ no_set_pin }
{
    SetPin {
        pin_type: 0,
        pin_operation: 0,
    }
}

fn no_info() -> PinInfo
    ensures { result ≡ no_info }
{
    PinInfo {
        pin_type: 0,
        pin_state: 0,
        remaining_attempts: 0,
    }
}

fn no_texts() -> SetPinTexts
    ensures { result ≡ no_texts }
{
    let none = Range {
        start: 0,
        length: 0,
    };
    SetPinTexts {
        pin: none,
        new_pin: none,
    }
}
