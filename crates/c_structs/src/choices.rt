// A reader's choices by the numbers that C gives for them.
ghost use Rattle.std.specs.Prelude.{◌≡◌};
ghost use Rattle.c_structs.specs.Choices.{zero_size_of, reading_of};

use handshake::version_at;
use pairs::ZeroSize;
use protocol::{Reason, Refusal, Version};

// Numbers, as the C interface gives them.
const ABSENT: u32 = 0;

const STRICT: u32 = 1;

// What a number chooses; any other is refused. ZeroSize and u32 are of other crates: no TryFrom.
#[tactic(auto, unfolding(crate::specs::Choices::zero_size_of))]
pub fn zero_size_at(number: u32) -> Result<ZeroSize, Refusal>
    ensures { result ≡ zero_size_of number }
{
    match number {
        ABSENT => Ok(ZeroSize::Absent),
        STRICT => Ok(ZeroSize::Strict),
        _ => Err(Refusal {
            reason: Reason::OutsideTable,
            place: 0,
        }),
    }
}

// The version and the choice of a reader, by their numbers, that of the version first.
#[tactic(auto, unfolding(crate::specs::Choices::reading_of))]
pub fn reading_at(version: u16, zero_size: u32) -> Result<(Version, ZeroSize), Refusal>
    ensures { result ≡ reading_of version zero_size }
{
    let version = version_at(version)?;
    let choice = zero_size_at(zero_size)?;
    Ok((version, choice))
}
