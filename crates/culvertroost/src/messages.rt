// Messages, for C: judged whole, cut, and what one shows.
ghost use Rattle.std.specs.Prelude.{◌≡◌};
ghost use Rattle.message.specs.Message.{whole_of, write_whole_of};
ghost use Rattle.cutter.specs.Cut.{cut_of};
ghost use Rattle.cutter.specs.Transaction.{next_transaction};
ghost use Rattle.payload.specs.Payload.{shown_of};
ghost use Rattle.c_structs.specs.Answers.{written_answer};
ghost use Rattle.c_structs.specs.Messages.{whole_info, cut_info, kind_info};

use c_structs::WrittenAnswer;
use c_structs::messages::{CutInfo, KindInfo, WholeInfo};
use cutter::{cut, next_transaction};
use message::{MessageHeader, judge_whole, write_whole};
use payload::payload_of;

pub fn cvr_message_judge(message: &[u8]) -> WholeInfo
    ensures { result ≡ whole_info (whole_of message.now) }
{
    WholeInfo::from(judge_whole(message))
}

pub fn cvr_message_write(
    message_type: u32,
    transaction: u32,
    word: u32,
    out: &mut [u8],
) -> WrittenAnswer
    ensures value { result ≡ written_answer (write_whole_of message_type transaction word out.old).answer }
    ensures out_after { out.new ≡ (write_whole_of message_type transaction word out.old).output }
{
    WrittenAnswer::from(write_whole(message_type, transaction, word, out))
}

pub fn cvr_message_cut(
    message: MessageHeader,
    size: usize,
    information: &[u8],
    out: &mut [u8],
) -> CutInfo
    ensures value { result ≡ cut_info (cut_of message size information.now out.old).answer }
    ensures out_after { out.new ≡ (cut_of message size information.now out.old).output }
{
    CutInfo::from(cut(message, size, information, out))
}

pub fn cvr_payload_kind(message: MessageHeader) -> KindInfo
    ensures { result ≡ kind_info (shown_of message) }
{
    KindInfo::from(payload_of(message))
}

pub fn cvr_transaction_next(transaction: u32) -> u32
    ensures { result ≡ next_transaction transaction }
{
    next_transaction(transaction)
}
