// The VERSION payload's answer in C's layout.
ghost use Rattle.std.specs.Prelude.{◌≡◌};
ghost use Rattle.c_structs.specs.Versions.{no_info, answer_of};

use crate::{RefusalInfo, no_refusal};
use protocol::Refusal;
use version_info::VersionInfo;

#[repr(C)]
#[derive(Clone, Copy)]
pub struct VersionInfoAnswer {
    pub refusal: RefusalInfo,
    pub info: VersionInfo,
}

impl From<Result<VersionInfo, Refusal>> for VersionInfoAnswer {
    #[tactic(auto, unfolding(crate::specs::Versions::answer_of))]
    fn from(read: Result<VersionInfo, Refusal>) -> VersionInfoAnswer
        ensures { result ≡ answer_of read }
    {
        match read {
            Ok(info) => VersionInfoAnswer {
                refusal: no_refusal(),
                info,
            },
            Err(refusal) => VersionInfoAnswer {
                refusal: RefusalInfo::from(refusal),
                info: no_info(),
            },
        }
    }
}

fn no_info() -> VersionInfo
    ensures { result ≡ no_info }
{
    VersionInfo {
        bcd_mbim_version: 0,
        bcd_mbim_extended_version: 0,
    }
}
