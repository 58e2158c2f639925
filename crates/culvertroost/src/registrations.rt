// REGISTER_STATE, for C. The number of the version is judged before anything else, then that of the
// reader's choice.
ghost use Rattle.std.specs.Prelude.{◌≡◌, Err};
ghost use Rattle.c_structs.specs.Answers.{at_version, written_answer};
ghost use Rattle.c_structs.specs.Registrations.{answer_of};
ghost use Rattle.registration.specs.Registration.{read_with};
ghost use Rattle.culvertroost.specs.Registrations.{read_at, read_chosen, write_at};

use c_structs::WrittenAnswer;
use c_structs::choices::reading_at;
use c_structs::registrations::{RegistrationAnswer, RegistrationInfo, record_of};
use handshake::version_at;
use pairs::ZeroSize;
use protocol::Written;
use registration::read_with;
use registration_writer::write;

pub fn cvr_registration_read(version: u16, payload: &[u8]) -> RegistrationAnswer
    ensures { result ≡ answer_of (read_at version payload.now) }
{
    answer_by(version, ZeroSize::Absent, payload)
}

pub fn cvr_registration_read_with(
    version: u16,
    zero_size: u32,
    payload: &[u8],
) -> RegistrationAnswer
    ensures { result ≡ answer_of (read_chosen version zero_size payload.now) }
{
    match reading_at(version, zero_size) {
        Ok((_, choice)) => answer_by(version, choice, payload),
        Err(refusal) => RegistrationAnswer::from(Err(refusal)),
    }
}

// One function for both, which makes C's answer where it reads, so that no answer is copied on its way. It
// takes the version's number, so that a plain read is this call alone.
#[tactic(auto, unfolding(c_structs::specs::Registrations::answer_of))]
fn answer_by(version: u16, choice: ZeroSize, payload: &[u8]) -> RegistrationAnswer
    ensures { result ≡ answer_of (at_version version Err (λ v. read_with v choice payload.now)) }
{
    match version_at(version) {
        Ok(version) => RegistrationAnswer::from(read_with(version, choice, payload)),
        Err(refusal) => RegistrationAnswer::from(Err(refusal)),
    }
}

pub fn cvr_registration_write(
    info: RegistrationInfo,
    provider_id: &[u8],
    provider_name: &[u8],
    roaming_text: &[u8],
    out: &mut [u8],
) -> WrittenAnswer
    ensures value { result ≡ written_answer (write_at info provider_id.now provider_name.now roaming_text.now out.old).answer }
    ensures out_after { out.new ≡ (write_at info provider_id.now provider_name.now roaming_text.now out.old).output }
{
    WrittenAnswer::from(write_at(info, provider_id, provider_name, roaming_text, out))
}

#[tactic(auto, unfolding(protocol::specs::Verdict::given))]
fn write_at(
    info: RegistrationInfo,
    provider_id: &[u8],
    provider_name: &[u8],
    roaming_text: &[u8],
    out: &mut [u8],
) -> Written
    ensures value { result ≡ (write_at info provider_id.now provider_name.now roaming_text.now out.old).answer }
    ensures out_after { out.new ≡ (write_at info provider_id.now provider_name.now roaming_text.now out.old).output }
{
    let version = version_at(info.version)?;
    write(
        record_of(version, info),
        provider_id,
        provider_name,
        roaming_text,
        out,
    )
}
