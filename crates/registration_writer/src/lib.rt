// The writer of the REGISTER_STATE payload; what it writes is said beside the reader, in `registration`.
#![tactic(auto)]

ghost use Rattle.std.specs.Prelude.{◌≡◌, ◌≤◌, length};
ghost use Rattle.std.proofs.lemmas.List.Edits.{sets};
ghost use Rattle.texts.specs.Texts.{laid, ranges_bytes, texts_bytes};
ghost use Rattle.registration.specs.Registration.{fixed_part, version_of, three, written_verdict, laid_texts, front_bytes, back_bytes, fixed_with, write_of};

use protocol::{Reason, Verdict, Written, refuse_if};
use registration::{
    AVAILABLE_DATA_CLASS, CELLULAR_CLASS, NW_ERROR, PREFERRED_DATA_CLASS, PROVIDER_ID,
    PROVIDER_NAME, REGISTER_MODE, REGISTER_STATE, REGISTRATION_FLAG, ROAMING_TEXT, Registration,
    RegistrationForm, TEXTS, fixed_part, judge_back, judge_front, version_of,
};
use texts::{judge_sizes, put_pair, put_text, start_of};
use wire::put_u32;

// Writes the record at its form's version: what is to be written is judged, then the room.
#[tactic(auto, using(registration::proofs::Laws::length_bytes, registration::proofs::Laws::small, registration::proofs::Laws::stored), unfolding(registration::specs::Registration::write_of, protocol::specs::Verdict::writing, protocol::specs::Verdict::given, protocol::specs::Verdict::with_room, protocol::specs::Verdict::first_of, protocol::specs::Verdict::fault_if))]
pub fn write(
    info: Registration,
    provider_id: &[u8],
    provider_name: &[u8],
    roaming_text: &[u8],
    out: &mut [u8],
) -> Written
    ensures value { result ≡ (write_of info provider_id.now provider_name.now roaming_text.now out.old).answer }
    ensures out_after { out.new ≡ (write_of info provider_id.now provider_name.now roaming_text.now out.old).output }
{
    judge_written(
        info,
        provider_id.len(),
        provider_name.len(),
        roaming_text.len(),
    )?;
    let fixed = fixed_part(version_of(info));
    let id = provider_id.len() as u16;
    let name = provider_name.len() as u16;
    let roaming = roaming_text.len() as u16;
    let n = start_of(fixed, &[id, name, roaming], 3) as usize;
    refuse_if(out.len() < n, Reason::OutputTooSmall, n)?;
    put_fixed(info, id, name, roaming, out);
    put_texts(fixed, provider_id, provider_name, roaming_text, out);
    Ok(n)
}

// The writer's rules, by the sizes of the texts.
#[tactic(auto, unfolding(registration::specs::Registration::written_verdict, registration::specs::Registration::size_rules, protocol::specs::Verdict::first_of))]
fn judge_written(info: Registration, id: usize, name: usize, roaming: usize) -> Verdict
    ensures { result ≡ written_verdict info id name roaming }
{
    judge_front(version_of(info), info)?;
    judge_sizes(&TEXTS, &[id, name, roaming])?;
    judge_back(info)
}

// The texts straight after the fixed part, where they are of sizes that fit.
fn put_texts(
    fixed: u16,
    provider_id: &[u8],
    provider_name: &[u8],
    roaming_text: &[u8],
    out: &mut [u8],
)
    requires { (length provider_id.now ≤ 126) × ((length provider_name.now ≤ 126) × (length roaming_text.now ≤ 126)) }
    ensures { out.new ≡ sets out.old fixed (texts_bytes (three provider_id.now provider_name.now roaming_text.now)) }
{
    let sizes = [
        provider_id.len() as u16,
        provider_name.len() as u16,
        roaming_text.len() as u16,
    ];
    put_text(out, fixed, &sizes, 0, provider_id);
    put_text(out, fixed, &sizes, 1, provider_name);
    put_text(out, fixed, &sizes, 2, roaming_text);
}

// The fixed part, for texts of these sizes.
#[tactic(auto, using(wire::proofs::Laws::sets_then), unfolding(registration::specs::Registration::fixed_bytes, registration::specs::Registration::front_bytes, registration::specs::Registration::texts_bytes, registration::specs::Registration::laid_texts, pairs::specs::Pair::range_bytes))]
fn put_fixed(info: Registration, id: u16, name: u16, roaming: u16, out: &mut [u8])
    ensures { out.new ≡ sets out.old 0 (fixed_with info (laid_texts (fixed_part (version_of info)) id name roaming)) }
{
    put_front(info, out);
    put_pairs(fixed_part(version_of(info)), id, name, roaming, out);
    put_back(info, out);
}

#[tactic(auto, unfolding(registration::specs::Registration::front_bytes))]
fn put_front(info: Registration, out: &mut [u8])
    ensures { out.new ≡ sets out.old 0 (front_bytes info) }
{
    put_u32(out, NW_ERROR, info.nw_error);
    put_u32(out, REGISTER_STATE, info.register_state);
    put_u32(out, REGISTER_MODE, info.register_mode);
    put_u32(out, AVAILABLE_DATA_CLASS, info.available_data_class);
    put_u32(out, CELLULAR_CLASS, info.cellular_class);
}

#[tactic(auto, unfolding(pairs::specs::Pair::range_bytes))]
fn put_pairs(fixed: u16, id: u16, name: u16, roaming: u16, out: &mut [u8])
    ensures { out.new ≡ sets out.old 20 (ranges_bytes (laid fixed (three id name roaming))) }
{
    let sizes = [id, name, roaming];
    put_pair(out, PROVIDER_ID, fixed, &sizes, 0);
    put_pair(out, PROVIDER_NAME, fixed, &sizes, 1);
    put_pair(out, ROAMING_TEXT, fixed, &sizes, 2);
}

#[tactic(auto, unfolding(registration::specs::Registration::back_bytes))]
fn put_back(info: Registration, out: &mut [u8])
    ensures { out.new ≡ sets out.old 44 (back_bytes info) }
{
    put_u32(out, REGISTRATION_FLAG, info.registration_flag);
    if let RegistrationForm::V2 {
        preferred_data_class: class,
    } = info.form
    {
        put_u32(out, PREFERRED_DATA_CLASS, class);
    }
}
