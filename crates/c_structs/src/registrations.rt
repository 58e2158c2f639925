// The REGISTER_STATE payload's record and answer in C's layout.
ghost use Rattle.std.specs.Prelude.{◌≡◌};
ghost use Rattle.c_structs.specs.Registrations.{no_info, no_texts, info_of, answer_of, record_of};

use crate::{RefusalInfo, no_refusal};
use handshake::number_of;
use pairs::Range;
use protocol::{Refusal, Version};
use registration::{Registration, RegistrationForm, RegistrationTexts, version_of};

// What the version's form does not have is 0 in an answer, and no writer looks at it.
#[repr(C)]
#[derive(Clone, Copy)]
pub struct RegistrationInfo {
    pub version: u16,
    pub nw_error: u32,
    pub register_state: u32,
    pub register_mode: u32,
    pub available_data_class: u32,
    pub cellular_class: u32,
    pub registration_flag: u32,
    pub preferred_data_class: u32,
}

#[repr(C)]
#[derive(Clone, Copy)]
pub struct RegistrationAnswer {
    pub refusal: RefusalInfo,
    pub info: RegistrationInfo,
    pub texts: RegistrationTexts,
}

impl From<Result<(Registration, RegistrationTexts), Refusal>> for RegistrationAnswer {
    #[tactic(auto, unfolding(crate::specs::Registrations::answer_of))]
    fn from(read: Result<(Registration, RegistrationTexts), Refusal>) -> RegistrationAnswer
        ensures { result ≡ answer_of read }
    {
        match read {
            Ok((fields, texts)) => RegistrationAnswer {
                refusal: no_refusal(),
                info: RegistrationInfo::from(fields),
                texts,
            },
            Err(refusal) => RegistrationAnswer {
                refusal: RefusalInfo::from(refusal),
                info: no_info(),
                texts: no_texts(),
            },
        }
    }
}

impl From<Registration> for RegistrationInfo {
    #[tactic(auto, unfolding(crate::specs::Registrations::info_of))]
    fn from(fields: Registration) -> RegistrationInfo
        ensures { result ≡ info_of fields }
    {
        RegistrationInfo {
            version: number_of(version_of(fields)),
            nw_error: fields.nw_error,
            register_state: fields.register_state,
            register_mode: fields.register_mode,
            available_data_class: fields.available_data_class,
            cellular_class: fields.cellular_class,
            registration_flag: fields.registration_flag,
            preferred_data_class: match fields.form {
                RegistrationForm::V1 => 0,
                RegistrationForm::V2 {
                    preferred_data_class,
                } => preferred_data_class,
            },
        }
    }
}

// The record of a version; the number in `info` is not looked at.
#[tactic(auto, unfolding(crate::specs::Registrations::record_of))]
pub fn record_of(version: Version, info: RegistrationInfo) -> Registration
    ensures { result ≡ record_of version info }
{
    let form = match version {
        Version::V1 => RegistrationForm::V1,
        Version::V2 => RegistrationForm::V2 {
            preferred_data_class: info.preferred_data_class,
        },
    };
    Registration {
        nw_error: info.nw_error,
        register_state: info.register_state,
        register_mode: info.register_mode,
        available_data_class: info.available_data_class,
        cellular_class: info.cellular_class,
        registration_flag: info.registration_flag,
        form,
    }
}

fn no_info() -> RegistrationInfo
    ensures { result ≡ no_info }
{
    RegistrationInfo {
        version: 0,
        nw_error: 0,
        register_state: 0,
        register_mode: 0,
        available_data_class: 0,
        cellular_class: 0,
        registration_flag: 0,
        preferred_data_class: 0,
    }
}

fn no_texts() -> RegistrationTexts
    ensures { result ≡ no_texts }
{
    let none = Range {
        start: 0,
        length: 0,
    };
    RegistrationTexts {
        provider_id: none,
        provider_name: none,
        roaming_text: none,
    }
}
