// versions, exported to C: each function is culvertroost::versions's, with its contract.
ghost use Rattle.std.specs.Prelude.{◌≡◌};
ghost use Rattle.version_info.specs.VersionInfo.{read_of, write_of};
ghost use Rattle.c_structs.specs.Answers.{written_answer};
ghost use Rattle.c_structs.specs.Versions.{answer_of};

use c_structs::WrittenAnswer;
use c_structs::versions::VersionInfoAnswer;
use version_info::VersionInfo;

#[unsafe(no_mangle)]
pub extern "C" fn cvr_version_info_read(payload: &[u8]) -> VersionInfoAnswer
    ensures { result ≡ answer_of (read_of payload.now) }
{
    culvertroost::versions::cvr_version_info_read(payload)
}

#[unsafe(no_mangle)]
pub extern "C" fn cvr_version_info_write(info: VersionInfo, out: &mut [u8]) -> WrittenAnswer
    ensures value { result ≡ written_answer (write_of info out.old).answer }
    ensures out_after { out.new ≡ (write_of info out.old).output }
{
    culvertroost::versions::cvr_version_info_write(info, out)
}
