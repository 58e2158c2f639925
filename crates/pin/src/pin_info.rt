// The PIN_INFO payload: its record, and its reader and writer.
ghost use Rattle.std.specs.Prelude.{◌≡◌};
ghost use Rattle.std.proofs.lemmas.List.Edits.{sets};
ghost use Rattle.pin.specs.PinInfo.{record_at, verdict_of, read_of, bytes_of, write_of};

use protocol::{Reason, Refusal, Verdict, Written, judge_exact_length, refuse_if};
use wire::{put_u32, u32_at};

// Type and state as numbers, as they stand in the payload: C interface. Reader and writer judge them.
#[repr(C)]
#[derive(Clone, Copy)]
pub struct PinInfo {
    pub pin_type: u32,
    pub pin_state: u32,
    pub remaining_attempts: u32,
}

// No type.
pub const NONE: u32 = 0;

// The last PIN type of MBIM 1.0.
pub const LAST_TYPE: u32 = 17;

pub const UNLOCKED: u32 = 0;

pub const LOCKED: u32 = 1;

const PIN_TYPE: usize = 0;

const PIN_STATE: usize = 4;

const REMAINING_ATTEMPTS: usize = 8;

const LENGTH: usize = 12;

// The length is judged first, so that the reads after it need no test of their own.
#[tactic(auto, unfolding(crate::specs::PinInfo::read_of, protocol::specs::Verdict::first_of))]
pub fn read(payload: &[u8]) -> Result<PinInfo, Refusal>
    ensures { result ≡ read_of payload.now }
{
    judge_exact_length(LENGTH, payload.len())?;
    let info = record_at(payload);
    judge(info)?;
    Ok(info)
}

#[tactic(auto, using(crate::proofs::PinInfoLaws::bytes_long, wire::proofs::Laws::sets_over), unfolding(crate::specs::PinInfo::write_of, protocol::specs::Verdict::writing, protocol::specs::Verdict::given, protocol::specs::Verdict::with_room, protocol::specs::Verdict::first_of, protocol::specs::Verdict::fault_if))]
pub fn write(info: PinInfo, out: &mut [u8]) -> Written
    ensures value { result ≡ (write_of info out.old).answer }
    ensures out_after { out.new ≡ (write_of info out.old).output }
{
    judge(info)?;
    refuse_if(out.len() < LENGTH, Reason::OutputTooSmall, LENGTH)?;
    put(info, out);
    Ok(LENGTH)
}

#[tactic(auto, unfolding(crate::specs::PinInfo::record_at))]
fn record_at(s: &[u8]) -> PinInfo
    ensures { result ≡ record_at s.now }
{
    PinInfo {
        pin_type: u32_at(s, PIN_TYPE),
        pin_state: u32_at(s, PIN_STATE),
        remaining_attempts: u32_at(s, REMAINING_ATTEMPTS),
    }
}

#[tactic(auto, unfolding(crate::specs::PinInfo::verdict_of, crate::specs::PinInfo::rules, protocol::specs::Verdict::judge_from, protocol::specs::Verdict::first_of, protocol::specs::Verdict::fault_if))]
fn judge(info: PinInfo) -> Verdict
    ensures { result ≡ verdict_of info }
{
    refuse_if(LAST_TYPE < info.pin_type, Reason::OutsideTable, PIN_TYPE)?;
    refuse_if(LOCKED < info.pin_state, Reason::OutsideTable, PIN_STATE)
}

#[tactic(auto, unfolding(crate::specs::PinInfo::bytes_of))]
fn put(info: PinInfo, out: &mut [u8])
    ensures { out.new ≡ sets out.old 0 (bytes_of info) }
{
    put_u32(out, PIN_TYPE, info.pin_type);
    put_u32(out, PIN_STATE, info.pin_state);
    put_u32(out, REMAINING_ATTEMPTS, info.remaining_attempts);
}
