// The ends of the handshake in memory that the caller lends, 6 bytes a host and 10 a modem. Memory that
// is too small, or whose numbers no calls can have left, is refused and stays as it was.
#![tactic(auto)]

ghost use Rattle.std.specs.Prelude.{◌≡◌};
ghost use Rattle.protocol.specs.Verdict.{judge};
ghost use Rattle.lent_ends.specs.Stages.{native_rules, stray_version};

use protocol::{Reason, Verdict, refuse_if};
use version_info::is_extension;
use wire::u16_at;

// Where each end has its native version.
pub const NATIVE: usize = 0;

// The verdict on the room for an end, and on its native version.
#[tactic(auto, unfolding(protocol::specs::Verdict::judge_from, protocol::specs::Verdict::first_of, protocol::specs::Verdict::fault_if))]
pub fn judge_native(memory: &[u8], size: usize) -> Verdict
    ensures { result ≡ judge (native_rules size memory.now) }
{
    refuse_if(memory.len() < size, Reason::OutputTooSmall, size)?;
    refuse_if(
        !is_extension(u16_at(memory, NATIVE)),
        Reason::Contradiction,
        NATIVE,
    )
}

// Whether a stage can't have the number for its version: one with no version has 0.
pub fn is_stray_version(versioned: bool, number: u16) -> bool
    ensures { result ≡ stray_version versioned number }
{
    if versioned {
        !is_extension(number)
    } else {
        number != 0
    }
}
