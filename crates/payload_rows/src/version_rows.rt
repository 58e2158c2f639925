// The rows of a VERSION payload.
ghost use Rattle.version_info.specs.VersionInfo.{read_of};
ghost use Rattle.rows.specs.Rows.{Put};
ghost use Rattle.payload_rows.specs.Versions.{version_text};

use rows::{put_refused, put_row, put_text};
use version_info::VersionInfo;

#[tactic(auto, unfolding(crate::specs::Versions::version_text))]
pub fn put(payload: &[u8], out: &mut [u8], at: usize) -> usize
    ensures { Put out.old at (version_text (read_of payload.now)) out.new result }
{
    match version_info::read(payload) {
        Err(refusal) => put_refused(out, at, refusal),
        Ok(info) => {
            let mbim = put_text(out, at, b"field\tvalue\n");
            let extended = put_row(out, mbim, b"bcdMBIMVersion", info.bcd_mbim_version as u64);
            put_row(
                out,
                extended,
                b"bcdMBIMExtendedVersion",
                info.bcd_mbim_extended_version as u64,
            )
        }
    }
}
