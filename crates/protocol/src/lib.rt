// What document 01 fixes for every payload and message: versions, refusals and verdicts here; data
// classes, message types, statuses, and services with their CIDs in modules. No payload is known here.
#![tactic(auto)]

pub mod data_class;
pub mod message_type;
pub mod service;
pub mod status;

ghost use Rattle.std.specs.Prelude.{◌≡◌};
ghost use Rattle.protocol.specs.Refusal.{number_of};
ghost use Rattle.protocol.specs.Verdict.{first_of, fault_if, exact_length, open_length};

// The version of the extensions: 1.00 or 2.00.
#[derive(Clone, Copy, PartialEq, Eq, PartialOrd, Ord)]
pub enum Version {
    V1,
    V2,
}

// Why something is refused: 01's table in its order, and what 02 adds to it, each with its number.
#[derive(Clone, Copy, PartialEq, Eq, Debug)]
pub enum Reason {
    TooShort = 1,
    WrongLength = 2,
    Unknown = 3,
    WrongFragment = 4,
    TooLong = 5,
    OffsetInFixedPart = 6,
    PastEnd = 7,
    WrongSize = 8,
    OutsideTable = 9,
    Contradiction = 10,
    OutputTooSmall = 11,
    WrongVersion = 12,
    AboveHost = 13,
    VersionNotListed = 14,
    WrongCount = 15,
    WrongTransferSize = 16,
    MisalignedOffset = 17,
    OffsetWithZeroSize = 18,
    BadLine = 19,
}

impl From<Reason> for u32 {
    #[tactic(auto, unfolding(crate::specs::Refusal::number_of))]
    fn from(reason: Reason) -> u32
        ensures { result ≡ number_of reason }
    {
        reason as u32
    }
}

// 01's refusal: a reason and a place, a byte offset where 01 or 02 says no other.
#[derive(Clone, Copy)]
pub struct Refusal {
    pub reason: Reason,
    pub place: usize,
}

// The most information bytes of a message.
pub const MOST_INFORMATION: usize = 4096;

// What a judge finds: all rules are kept, or the refusal of the first one broken.
pub type Verdict = Result<(), Refusal>;

// What a writer answers: how many bytes it put at the front of the output, or a refusal.
pub type Written = Result<usize, Refusal>;

// One rule: the refusal, where it is broken.
#[tactic(auto, unfolding(crate::specs::Verdict::fault_if))]
pub fn refuse_if(broken: bool, reason: Reason, place: usize) -> Verdict
    ensures { result ≡ fault_if broken reason place }
{
    if broken {
        return Err(Refusal { reason, place });
    }
    Ok(())
}

// The verdict on n bytes of a payload whose length is exactly `fixed`.
#[tactic(auto, unfolding(crate::specs::Verdict::exact_length, crate::specs::Verdict::judge_from, crate::specs::Verdict::first_of, crate::specs::Verdict::fault_if))]
pub fn judge_exact_length(fixed: usize, n: usize) -> Verdict
    ensures { result ≡ exact_length fixed n }
{
    refuse_if(n < fixed, Reason::TooShort, n)?;
    refuse_if(fixed < n, Reason::WrongLength, n)
}

// The verdict on n bytes of a payload with a fixed part and texts or lists after it.
#[tactic(auto, unfolding(crate::specs::Verdict::open_length, crate::specs::Verdict::judge_from, crate::specs::Verdict::first_of, crate::specs::Verdict::fault_if))]
pub fn judge_open_length(fixed: usize, n: usize) -> Verdict
    ensures { result ≡ open_length fixed n }
{
    refuse_if(n < fixed, Reason::TooShort, n)?;
    refuse_if(MOST_INFORMATION < n, Reason::TooLong, 0)
}
