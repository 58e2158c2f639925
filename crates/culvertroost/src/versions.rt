// VERSION, for C.
ghost use Rattle.std.specs.Prelude.{◌≡◌};
ghost use Rattle.version_info.specs.VersionInfo.{read_of, write_of};
ghost use Rattle.c_structs.specs.Answers.{written_answer};
ghost use Rattle.c_structs.specs.Versions.{answer_of};

use c_structs::WrittenAnswer;
use c_structs::versions::VersionInfoAnswer;
use version_info::{VersionInfo, read, write};

pub fn cvr_version_info_read(payload: &[u8]) -> VersionInfoAnswer
    ensures { result ≡ answer_of (read_of payload.now) }
{
    VersionInfoAnswer::from(read(payload))
}

pub fn cvr_version_info_write(info: VersionInfo, out: &mut [u8]) -> WrittenAnswer
    ensures value { result ≡ written_answer (write_of info out.old).answer }
    ensures out_after { out.new ≡ (write_of info out.old).output }
{
    WrittenAnswer::from(write(info, out))
}
