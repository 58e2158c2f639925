// The numbers of an assembly in lent memory, judged: what no feeds from empty can have left is refused.
#![tactic(auto)]

ghost use Rattle.std.specs.Prelude.{◌≡◌};
ghost use Rattle.protocol.specs.Verdict.{judge};
ghost use Rattle.lent_progress.specs.LentProgress.{is_none, stray_word, above_carried, pending_rules, progress_verdict};

use assembler::Progress;
use message::{MOST_FRAGMENTS, MOST_TRANSFER, MessageHeader, first_length, is_wrong_word};
use protocol::message_type::{INDICATE_STATUS, is_fragmented};
use protocol::{MOST_INFORMATION, Reason, Verdict, refuse_if};

// Where each number stands in the memory.
pub const MESSAGE_TYPE: usize = 0;

pub const WORD: usize = 28;

pub const TOTAL: usize = 32;

pub const NEXT: usize = 36;

pub const INFORMATION_LENGTH: usize = 40;

pub const GATHERED: usize = 44;

// The verdict on what feeding from empty can have left: no message at all, or one that is pending.
#[tactic(auto, unfolding(crate::specs::LentProgress::progress_verdict, protocol::specs::Verdict::judge_from, protocol::specs::Verdict::first_of, protocol::specs::Verdict::fault_if))]
pub fn judge_progress(progress: Progress) -> Verdict
    ensures { result ≡ progress_verdict progress }
{
    if progress.total == 0 {
        return refuse_if(!is_none(progress), Reason::Contradiction, TOTAL);
    }
    judge_pending(progress)
}

#[tactic(auto, unfolding(protocol::specs::Verdict::judge_from, protocol::specs::Verdict::first_of, protocol::specs::Verdict::fault_if))]
fn judge_pending(progress: Progress) -> Verdict
    ensures { result ≡ judge (pending_rules progress) }
{
    let message = progress.message;
    let declared = progress.information_length;
    refuse_if(
        !is_fragmented(message.message_type),
        Reason::Contradiction,
        MESSAGE_TYPE,
    )?;
    refuse_if(is_stray_word(message), Reason::Contradiction, WORD)?;
    refuse_if(
        MOST_FRAGMENTS < progress.total,
        Reason::Contradiction,
        TOTAL,
    )?;
    refuse_if(progress.next == 0, Reason::Contradiction, NEXT)?;
    refuse_if(progress.total <= progress.next, Reason::Contradiction, NEXT)?;
    refuse_if(
        MOST_INFORMATION < declared as usize,
        Reason::Contradiction,
        INFORMATION_LENGTH,
    )?;
    refuse_if(
        declared < progress.gathered,
        Reason::Contradiction,
        GATHERED,
    )?;
    refuse_if(is_above_carried(progress), Reason::Contradiction, GATHERED)
}

// Whether no first fragment has the message's word.
#[tactic(auto, unfolding(crate::specs::LentProgress::stray_word))]
pub fn is_stray_word(message: MessageHeader) -> bool
    ensures { result ≡ stray_word message }
{
    if message.message_type == INDICATE_STATUS {
        return message.word != 0;
    }
    is_wrong_word(message)
}

// Whether more is gathered than the one fragment that came can carry. Two can carry any message.
#[tactic(auto, unfolding(crate::specs::LentProgress::above_carried))]
fn is_above_carried(progress: Progress) -> bool
    ensures { result ≡ above_carried progress }
{
    let before = first_length(progress.message.message_type);
    progress.next == 1 && MOST_TRANSFER < before + progress.gathered as usize
}

// Whether every number but the total is 0, as then their sums are.
#[tactic(auto, unfolding(crate::specs::LentProgress::is_none))]
fn is_none(progress: Progress) -> bool
    ensures { result ≡ is_none progress }
{
    let message = progress.message;
    let service = message.service;
    let id = service.word0 as u64
        + service.word1 as u64
        + service.word2 as u64
        + service.word3 as u64;
    let header = message.message_type as u64
        + message.transaction as u64
        + message.cid as u64
        + message.word as u64;
    let counts = progress.next as u64
        + progress.information_length as u64
        + progress.gathered as u64;
    id == 0 && header == 0 && counts == 0
}
