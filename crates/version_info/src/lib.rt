// The VERSION payload: its record, and its reader and writer. It has one form at both versions.
#![tactic(auto)]

ghost use Rattle.std.specs.Prelude.{◌≡◌};
ghost use Rattle.std.proofs.lemmas.List.Edits.{sets};
ghost use Rattle.version_info.specs.VersionInfo.{is_extension, record_at, verdict_of, read_of, bytes_of, write_of};

use protocol::{Reason, Refusal, Verdict, Written, judge_exact_length, refuse_if};
use wire::{put_u16, u16_at};

// Two BCD numbers.
#[repr(C)]
#[derive(Clone, Copy)]
pub struct VersionInfo {
    pub bcd_mbim_version: u16,
    pub bcd_mbim_extended_version: u16,
}

// A record may hold any number; a Version is made of a judged one in `handshake`.
pub const MBIM_1_0: u16 = 0x0100;

pub const EXTENSIONS_1_0: u16 = 0x0100;

pub const EXTENSIONS_2_0: u16 = 0x0200;

const BCD_MBIM_VERSION: usize = 0;

const BCD_MBIM_EXTENDED_VERSION: usize = 2;

const LENGTH: usize = 4;

// The length is judged first, so that the reads after it need no test of their own.
#[tactic(auto, unfolding(crate::specs::VersionInfo::read_of, protocol::specs::Verdict::first_of))]
pub fn read(payload: &[u8]) -> Result<VersionInfo, Refusal>
    ensures { result ≡ read_of payload.now }
{
    judge_exact_length(LENGTH, payload.len())?;
    let info = record_at(payload);
    judge(info)?;
    Ok(info)
}

#[tactic(auto, using(wire::proofs::Laws::sets_over, crate::proofs::Laws::length_bytes), unfolding(crate::specs::VersionInfo::write_of, protocol::specs::Verdict::writing, protocol::specs::Verdict::with_room, protocol::specs::Verdict::given, protocol::specs::Verdict::first_of, protocol::specs::Verdict::fault_if))]
pub fn write(info: VersionInfo, out: &mut [u8]) -> Written
    ensures value { result ≡ (write_of info out.old).answer }
    ensures out_after { out.new ≡ (write_of info out.old).output }
{
    judge(info)?;
    refuse_if(out.len() < LENGTH, Reason::OutputTooSmall, LENGTH)?;
    put(info, out);
    Ok(LENGTH)
}

#[tactic(auto, unfolding(crate::specs::VersionInfo::record_at))]
fn record_at(s: &[u8]) -> VersionInfo
    ensures { result ≡ record_at s.now }
{
    VersionInfo {
        bcd_mbim_version: u16_at(s, BCD_MBIM_VERSION),
        bcd_mbim_extended_version: u16_at(s, BCD_MBIM_EXTENDED_VERSION),
    }
}

#[tactic(auto, unfolding(crate::specs::VersionInfo::verdict_of, crate::specs::VersionInfo::rules, protocol::specs::Verdict::judge_from, protocol::specs::Verdict::first_of, protocol::specs::Verdict::fault_if))]
fn judge(info: VersionInfo) -> Verdict
    ensures { result ≡ verdict_of info }
{
    refuse_if(info.bcd_mbim_version != MBIM_1_0, Reason::WrongVersion, 0)?;
    refuse_if(
        !is_extension(info.bcd_mbim_extended_version),
        Reason::WrongVersion,
        0,
    )
}

// Whether a number is that of a version of the extensions.
pub fn is_extension(number: u16) -> bool
    ensures { result ≡ is_extension number }
{
    number == EXTENSIONS_1_0 || number == EXTENSIONS_2_0
}

#[tactic(auto, unfolding(crate::specs::VersionInfo::bytes_of))]
fn put(info: VersionInfo, out: &mut [u8])
    ensures { out.new ≡ sets out.old 0 (bytes_of info) }
{
    put_u16(out, BCD_MBIM_VERSION, info.bcd_mbim_version);
    put_u16(
        out,
        BCD_MBIM_EXTENDED_VERSION,
        info.bcd_mbim_extended_version,
    );
}
