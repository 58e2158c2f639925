// The REGISTER_STATE payload: its record, and a reader of both forms; the writer is in
// `registration_writer`. Texts are shown as ranges of the payload; what stands in one is not judged.
#![tactic(auto)]

ghost use Rattle.std.specs.Prelude.{◌≡◌};
ghost use Rattle.protocol.specs.Verdict.{judge};
ghost use Rattle.registration.specs.Registration.{fixed_part, form_at, record_at, texts_at, front_rules, unregistered, back_rules, head_verdict, choice_verdict, read_with, read_of, version_of};

use pairs::{Range, ZeroSize};
use protocol::data_class::is_only_classes;
use protocol::{Reason, Refusal, Verdict, Version, judge_open_length, refuse_if};
use texts::{judge_texts, judged_text};
use wire::u32_at;

// What only one form has.
#[derive(Clone, Copy)]
pub enum RegistrationForm {
    V1,
    V2 { preferred_data_class: u32 },
}

// States, modes and flags as numbers, as they stand in the payload: C interface. Reader and writer
// judge them.
#[derive(Clone, Copy)]
pub struct Registration {
    pub nw_error: u32,
    pub register_state: u32,
    pub register_mode: u32,
    pub available_data_class: u32,
    pub cellular_class: u32,
    pub registration_flag: u32,
    pub form: RegistrationForm,
}

#[repr(C)]
#[derive(Clone, Copy)]
pub struct RegistrationTexts {
    pub provider_id: Range,
    pub provider_name: Range,
    pub roaming_text: Range,
}

pub const NW_ERROR: usize = 0;

pub const REGISTER_STATE: usize = 4;

pub const REGISTER_MODE: usize = 8;

pub const AVAILABLE_DATA_CLASS: usize = 12;

pub const CELLULAR_CLASS: usize = 16;

pub const PROVIDER_ID: usize = 20;

pub const PROVIDER_NAME: usize = 28;

pub const ROAMING_TEXT: usize = 36;

pub const REGISTRATION_FLAG: usize = 44;

pub const PREFERRED_DATA_CLASS: usize = 48;

// The place and the limit of each text.
pub const TEXTS: [[u32; 2]; 3] = [
    [PROVIDER_ID as u32, 12],
    [PROVIDER_NAME as u32, 40],
    [ROAMING_TEXT as u32, 126],
];

const HOME: u32 = 3;

const PARTNER: u32 = 5;

const LAST_STATE: u32 = 6;

const LAST_MODE: u32 = 2;

const CELLULAR_CLASS_MASK: u32 = 3;

const REGISTRATION_FLAG_MASK: u32 = 3;

// By default.
pub fn read(version: Version, payload: &[u8]) -> Result<(Registration, RegistrationTexts), Refusal>
    ensures { result ≡ read_of version payload.now }
{
    read_with(version, ZeroSize::Absent, payload)
}

// By the caller's choice. The length is judged first, so that the reads after it need no test of
// their own.
#[tactic(auto, unfolding(crate::specs::Registration::read_with, crate::specs::Registration::verdict_with, crate::specs::Registration::texts_verdict, crate::specs::Registration::pairs_at, protocol::specs::Verdict::first_of))]
pub fn read_with(
    version: Version,
    zero_size: ZeroSize,
    payload: &[u8],
) -> Result<(Registration, RegistrationTexts), Refusal>
    ensures { result ≡ read_with version zero_size payload.now }
{
    let fixed = fixed_part(version);
    judge_open_length(fixed as usize, payload.len())?;
    let info = record_at(version, payload);
    judge_front(version, info)?;
    judge_texts(zero_size, payload, fixed, &TEXTS)?;
    judge_back(info)?;
    Ok((info, texts_at(payload)))
}

// The fault of the pairs by a choice, where nothing judged before them is at fault. Where it finds
// none, the choice's answer is the one by default.
#[tactic(auto, unfolding(crate::specs::Registration::texts_verdict, crate::specs::Registration::pairs_at))]
pub fn judge_choice(version: Version, zero_size: ZeroSize, payload: &[u8]) -> Verdict
    ensures { result ≡ choice_verdict version zero_size payload.now }
{
    if judge_head(version, payload).is_err() {
        return Ok(());
    }
    judge_texts(zero_size, payload, fixed_part(version), &TEXTS)
}

// The length, and the numbers in front of the pairs.
#[tactic(auto, unfolding(crate::specs::Registration::head_verdict, protocol::specs::Verdict::first_of))]
fn judge_head(version: Version, payload: &[u8]) -> Verdict
    ensures { result ≡ head_verdict version payload.now }
{
    judge_open_length(fixed_part(version) as usize, payload.len())?;
    judge_front(version, record_at(version, payload))
}

pub fn version_of(info: Registration) -> Version
    ensures { result ≡ version_of info }
{
    match info.form {
        RegistrationForm::V1 => Version::V1,
        RegistrationForm::V2 { .. } => Version::V2,
    }
}

pub fn fixed_part(version: Version) -> u16
    ensures { result ≡ fixed_part version }
{
    match version {
        Version::V1 => 48,
        Version::V2 => 52,
    }
}

#[tactic(auto, unfolding(crate::specs::Registration::record_at))]
fn record_at(version: Version, s: &[u8]) -> Registration
    ensures { result ≡ record_at version s.now }
{
    Registration {
        nw_error: u32_at(s, NW_ERROR),
        register_state: u32_at(s, REGISTER_STATE),
        register_mode: u32_at(s, REGISTER_MODE),
        available_data_class: u32_at(s, AVAILABLE_DATA_CLASS),
        cellular_class: u32_at(s, CELLULAR_CLASS),
        registration_flag: u32_at(s, REGISTRATION_FLAG),
        form: form_at(version, s),
    }
}

fn form_at(version: Version, s: &[u8]) -> RegistrationForm
    ensures { result ≡ form_at version s.now }
{
    match version {
        Version::V1 => RegistrationForm::V1,
        Version::V2 => RegistrationForm::V2 {
            preferred_data_class: u32_at(s, PREFERRED_DATA_CLASS),
        },
    }
}

#[tactic(auto, unfolding(crate::specs::Registration::texts_at, crate::specs::Registration::pairs_at))]
#[inline(always)]
fn texts_at(s: &[u8]) -> RegistrationTexts
    ensures { result ≡ texts_at s.now }
{
    RegistrationTexts {
        provider_id: judged_text(s, &TEXTS, 0),
        provider_name: judged_text(s, &TEXTS, 1),
        roaming_text: judged_text(s, &TEXTS, 2),
    }
}

// The numbers before the pairs, the same for the reader and the writer.
#[tactic(auto, unfolding(crate::specs::Registration::front_rules, protocol::specs::Verdict::judge_from, protocol::specs::Verdict::first_of, protocol::specs::Verdict::fault_if))]
pub fn judge_front(version: Version, info: Registration) -> Verdict
    ensures { result ≡ judge (front_rules version info) }
{
    let class = info.available_data_class;
    refuse_if(
        LAST_STATE < info.register_state,
        Reason::OutsideTable,
        REGISTER_STATE,
    )?;
    refuse_if(
        LAST_MODE < info.register_mode,
        Reason::OutsideTable,
        REGISTER_MODE,
    )?;
    refuse_if(
        !is_only_classes(version, class),
        Reason::OutsideTable,
        AVAILABLE_DATA_CLASS,
    )?;
    refuse_if(
        CELLULAR_CLASS_MASK < info.cellular_class,
        Reason::OutsideTable,
        CELLULAR_CLASS,
    )
}

// The numbers after the pairs, and last what contradicts.
#[tactic(auto, unfolding(crate::specs::Registration::back_rules, protocol::specs::Verdict::judge_from, protocol::specs::Verdict::first_of, protocol::specs::Verdict::fault_if))]
pub fn judge_back(info: Registration) -> Verdict
    ensures { result ≡ judge (back_rules info) }
{
    let stray = is_unregistered(info.register_state, info.available_data_class);
    let flag = info.registration_flag;
    refuse_if(
        REGISTRATION_FLAG_MASK < flag,
        Reason::OutsideTable,
        REGISTRATION_FLAG,
    )?;
    if let RegistrationForm::V2 {
        preferred_data_class: class,
    } = info.form
    {
        refuse_if(
            !is_only_classes(Version::V2, class),
            Reason::OutsideTable,
            PREFERRED_DATA_CLASS,
        )?;
    }
    refuse_if(stray, Reason::Contradiction, AVAILABLE_DATA_CLASS)
}

// Whether there is a class without a registered state.
fn is_unregistered(state: u32, class: u32) -> bool
    ensures { result ≡ unregistered state class }
{
    class != 0 && (state < HOME || PARTNER < state)
}
