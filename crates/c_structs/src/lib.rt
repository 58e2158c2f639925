// Plain structs in C's layout for records and answers, and the way from one to the other: one module
// a payload or part. Nothing is judged here. Each answer is a struct of its own, with a From and a value for a
// refusal of its own, an array beside its count and numbers for kinds: the C interface has them so.
#![tactic(auto)]

pub mod choices;
pub mod ends;
pub mod messages;
pub mod packets;
pub mod pins;
pub mod quality;
pub mod registrations;
pub mod services;
pub mod signals;
pub mod streams;
pub mod versions;

ghost use Rattle.std.specs.Prelude.{◌≡◌};
ghost use Rattle.c_structs.specs.Answers.{no_refusal, refusal_info, refusal_of, written_answer};

use protocol::{Refusal, Verdict, Written};

// A refusal in C's layout; its number is 0 beside an answer that is no refusal.
#[repr(C)]
#[derive(Clone, Copy)]
pub struct RefusalInfo {
    pub number: u32,
    pub place: usize,
}

impl From<Refusal> for RefusalInfo {
    fn from(refusal: Refusal) -> RefusalInfo
        ensures { result ≡ refusal_info refusal }
    {
        RefusalInfo {
            number: u32::from(refusal.reason),
            place: refusal.place,
        }
    }
}

// The refusal of a verdict, or none.
impl From<Verdict> for RefusalInfo {
    fn from(verdict: Verdict) -> RefusalInfo
        ensures { result ≡ refusal_of verdict }
    {
        match verdict {
            Ok(()) => no_refusal(),
            Err(refusal) => RefusalInfo::from(refusal),
        }
    }
}

// What stands beside an answer that is no refusal.
pub fn no_refusal() -> RefusalInfo
    ensures { result ≡ no_refusal }
{
    RefusalInfo {
        number: 0,
        place: 0,
    }
}

// What a writer answers: the length is 0 where it refuses.
#[repr(C)]
#[derive(Clone, Copy)]
pub struct WrittenAnswer {
    pub refusal: RefusalInfo,
    pub length: usize,
}

impl From<Written> for WrittenAnswer {
    #[tactic(auto, unfolding(crate::specs::Answers::written_answer))]
    fn from(written: Written) -> WrittenAnswer
        ensures { result ≡ written_answer written }
    {
        match written {
            Ok(length) => WrittenAnswer {
                refusal: no_refusal(),
                length,
            },
            Err(refusal) => WrittenAnswer {
                refusal: RefusalInfo::from(refusal),
                length: 0,
            },
        }
    }
}
