// The rows of a REGISTER_STATE payload, read strictly.
ghost use Rattle.pairs.specs.declared.ZeroSize.TheVariants.{Strict};
ghost use Rattle.registration.specs.Registration.{read_with};
ghost use Rattle.rows.specs.Rows.{Put};
ghost use Rattle.payload_rows.specs.Registrations.{ListableTexts, class_rows, text_rows, flag_rows, registration_text};

use crate::range_rows::put_range_row;
use pairs::ZeroSize;
use protocol::Version;
use registration::{Registration, RegistrationForm, RegistrationTexts};
use rows::{put_refused, put_row, put_text};

#[tactic(auto, using(crate::proofs::Registrations::listable_texts), unfolding(crate::specs::Registrations::registration_text))]
pub fn put(version: Version, payload: &[u8], out: &mut [u8], at: usize) -> usize
    ensures { Put out.old at (registration_text payload.now (read_with version Strict payload.now)) out.new result }
{
    match registration::read_with(version, ZeroSize::Strict, payload) {
        Err(refusal) => put_refused(out, at, refusal),
        Ok((info, texts)) => {
            let error = put_text(out, at, b"field\tvalue\n");
            let id = put_classes(info, out, error);
            let flag = put_texts(texts, payload, out, id);
            put_flags(info, out, flag)
        }
    }
}

// The rows up to the cellular class.
fn put_classes(info: Registration, out: &mut [u8], at: usize) -> usize
    ensures { Put out.old at (class_rows info) out.new result }
{
    let state = put_row(out, at, b"NwError", info.nw_error as u64);
    let mode = put_row(out, state, b"RegisterState", info.register_state as u64);
    let available = put_row(out, mode, b"RegisterMode", info.register_mode as u64);
    let cellular = put_row(
        out,
        available,
        b"AvailableDataClass",
        info.available_data_class as u64,
    );
    put_row(out, cellular, b"CellularClass", info.cellular_class as u64)
}

fn put_texts(texts: RegistrationTexts, payload: &[u8], out: &mut [u8], at: usize) -> usize
    requires { ListableTexts texts payload.now }
    ensures { Put out.old at (text_rows payload.now texts) out.new result }
{
    let second = put_range_row(out, at, b"ProviderId", payload, texts.provider_id);
    let third = put_range_row(out, second, b"ProviderName", payload, texts.provider_name);
    put_range_row(out, third, b"RoamingText", payload, texts.roaming_text)
}

// The rows from the flag on.
fn put_flags(info: Registration, out: &mut [u8], at: usize) -> usize
    ensures { Put out.old at (flag_rows info) out.new result }
{
    let next = put_row(out, at, b"RegistrationFlag", info.registration_flag as u64);
    match info.form {
        RegistrationForm::V1 => next,
        RegistrationForm::V2 {
            preferred_data_class,
        } => put_row(
            out,
            next,
            b"PreferredDataClass",
            preferred_data_class as u64,
        ),
    }
}
