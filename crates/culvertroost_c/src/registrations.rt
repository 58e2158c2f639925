// registrations, exported to C: each function is culvertroost::registrations's, with its contract.
ghost use Rattle.std.specs.Prelude.{◌≡◌};
ghost use Rattle.c_structs.specs.Answers.{written_answer};
ghost use Rattle.c_structs.specs.Registrations.{answer_of};
ghost use Rattle.culvertroost.specs.Registrations.{read_at, read_chosen, write_at};

use c_structs::WrittenAnswer;
use c_structs::registrations::{RegistrationAnswer, RegistrationInfo};

#[unsafe(no_mangle)]
pub extern "C" fn cvr_registration_read(version: u16, payload: &[u8]) -> RegistrationAnswer
    ensures { result ≡ answer_of (read_at version payload.now) }
{
    culvertroost::registrations::cvr_registration_read(version, payload)
}

// Where the choice finds no fault, the answer is the plain one.
#[unsafe(no_mangle)]
pub extern "C" fn cvr_registration_read_with(
    version: u16,
    zero_size: u32,
    payload: &[u8],
) -> RegistrationAnswer
    ensures { result ≡ answer_of (read_chosen version zero_size payload.now) }
{
    culvertroost::registrations::cvr_registration_read_with(version, zero_size, payload)
}

#[unsafe(no_mangle)]
pub extern "C" fn cvr_registration_write(
    info: RegistrationInfo,
    provider_id: &[u8],
    provider_name: &[u8],
    roaming_text: &[u8],
    out: &mut [u8],
) -> WrittenAnswer
    ensures value { result ≡ written_answer (write_at info provider_id.now provider_name.now roaming_text.now out.old).answer }
    ensures out_after { out.new ≡ (write_at info provider_id.now provider_name.now roaming_text.now out.old).output }
{
    culvertroost::registrations::cvr_registration_write(
        info,
        provider_id,
        provider_name,
        roaming_text,
        out,
    )
}
