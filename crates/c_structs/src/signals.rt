// The SIGNAL_STATE payload's record, entries and answer in C's layout.
ghost use Rattle.std.specs.Prelude.{◌≡◌};
ghost use Rattle.c_structs.specs.Signals.{no_info, info_of, refused_by, answer_of, record_of};

use crate::{RefusalInfo, no_refusal};
use handshake::number_of;
use protocol::{Refusal, Version};
use signal_state::{RsrpSnr, SignalForm, SignalState, SignalStateShown, version_of};

// What the version's form does not have is 0 in an answer, and no writer looks at it; the same holds
// of the entries past the count.
#[repr(C)]
#[derive(Clone, Copy)]
pub struct SignalStateInfo {
    pub version: u16,
    pub rssi: u32,
    pub error_rate: u32,
    pub signal_strength_interval: u32,
    pub rssi_threshold: u32,
    pub error_rate_threshold: u32,
    pub count: u32,
    pub entries: [RsrpSnr; 16],
}

#[repr(C)]
#[derive(Clone, Copy)]
pub struct SignalStateAnswer {
    pub refusal: RefusalInfo,
    pub info: SignalStateInfo,
}

impl From<SignalStateShown> for SignalStateAnswer {
    #[tactic(auto, unfolding(crate::specs::Signals::answer_by))]
    fn from(shown: SignalStateShown) -> SignalStateAnswer
        ensures { result ≡ answer_of shown }
    {
        match shown.answer {
            Ok(fields) => {
                let info = info_of(fields, shown.entries);
                SignalStateAnswer {
                    refusal: no_refusal(),
                    info,
                }
            }
            Err(refusal) => SignalStateAnswer::from(refusal),
        }
    }
}

impl From<Refusal> for SignalStateAnswer {
    fn from(refusal: Refusal) -> SignalStateAnswer
        ensures { result ≡ refused_by refusal }
    {
        SignalStateAnswer {
            refusal: RefusalInfo::from(refusal),
            info: no_info(),
        }
    }
}

#[tactic(auto, unfolding(crate::specs::Signals::info_of))]
pub fn info_of(fields: SignalState, entries: [RsrpSnr; 16]) -> SignalStateInfo
    ensures { result ≡ info_of fields entries }
{
    SignalStateInfo {
        version: number_of(version_of(fields)),
        rssi: fields.rssi,
        error_rate: fields.error_rate,
        signal_strength_interval: fields.signal_strength_interval,
        rssi_threshold: fields.rssi_threshold,
        error_rate_threshold: fields.error_rate_threshold,
        count: match fields.form {
            SignalForm::V1 => 0,
            SignalForm::V2 { count } => count,
        },
        entries,
    }
}

// The record of a version; its entries stand beside it, and the number in `info` is not looked at.
#[tactic(auto, unfolding(crate::specs::Signals::record_of))]
pub fn record_of(version: Version, info: SignalStateInfo) -> SignalState
    ensures { result ≡ record_of version info }
{
    let form = match version {
        Version::V1 => SignalForm::V1,
        Version::V2 => SignalForm::V2 { count: info.count },
    };
    SignalState {
        rssi: info.rssi,
        error_rate: info.error_rate,
        signal_strength_interval: info.signal_strength_interval,
        rssi_threshold: info.rssi_threshold,
        error_rate_threshold: info.error_rate_threshold,
        form,
    }
}

#[tactic(auto, unfolding(crate::specs::Signals::no_info))]
fn no_info() -> SignalStateInfo
    ensures { result ≡ no_info }
{
    let entry = RsrpSnr {
        rsrp: 0,
        snr: 0,
        rsrp_threshold: 0,
        snr_threshold: 0,
        system_type: 0,
    };
    let entries = [entry; 16];
    SignalStateInfo {
        version: 0,
        rssi: 0,
        error_rate: 0,
        signal_strength_interval: 0,
        rssi_threshold: 0,
        error_rate_threshold: 0,
        count: 0,
        entries,
    }
}
