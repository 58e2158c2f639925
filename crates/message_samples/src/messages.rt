// Messages: questions 14, 15 and 19 to 21.
ghost use Rattle.std.specs.Prelude.{◌≤◌};

use culvertroost::messages::{
    cvr_message_cut, cvr_message_judge, cvr_message_write, cvr_payload_kind, cvr_transaction_next,
};
use message::MessageHeader;
use protocol::service::{ServiceId, id_at};
use sample_lines::answers::{Asked, few, least, lent, plain, short, word_at, written};

pub fn about_message(question: u8, arguments: &[u8], input: &[u8], out: &mut [u8]) -> Asked {
    match question {
        14 => judge(input),
        15 => write(arguments, out),
        19 => cut(arguments, input, out),
        20 => next_transaction(word_at(arguments, 1)),
        _ => kind(arguments, input),
    }
}

// The message of a service whose type, transaction, CID and word stand at a place.
pub fn message_at(arguments: &[u8], place: u32, service: ServiceId) -> MessageHeader
    requires { place ≤ 16 }
{
    MessageHeader {
        message_type: word_at(arguments, place),
        transaction: word_at(arguments, place + 1),
        service,
        cid: word_at(arguments, place + 2),
        word: word_at(arguments, place + 3),
    }
}

fn judge(input: &[u8]) -> Asked {
    let answer = cvr_message_judge(input);
    let refusal = answer.refusal;
    let numbers = few(
        refusal.number,
        refusal.place,
        answer.message_type,
        answer.transaction,
        answer.word,
    );
    plain(numbers)
}

fn write(arguments: &[u8], out: &mut [u8]) -> Asked {
    let room = lent(out, word_at(arguments, 1));
    let message_type = word_at(arguments, 2);
    let transaction = word_at(arguments, 3);
    let word = word_at(arguments, 4);
    let answer = cvr_message_write(message_type, transaction, word, room);
    let refusal = answer.refusal;
    let length = answer.length;
    let numbers = few(refusal.number, refusal.place, short(length), 0, 0);
    written(numbers, length)
}

// The input is the service and the information.
fn cut(arguments: &[u8], input: &[u8], out: &mut [u8]) -> Asked {
    let room = lent(out, word_at(arguments, 1));
    let size = word_at(arguments, 2) as usize;
    let message = message_at(arguments, 3, id_at(input, 0));
    let from = least(16, input.len());
    let answer = cvr_message_cut(message, size, &input[from..], room);
    let refusal = answer.refusal;
    let length = answer.length;
    let numbers = few(
        refusal.number,
        refusal.place,
        answer.count,
        short(length),
        0,
    );
    written(numbers, length)
}

fn next_transaction(transaction: u32) -> Asked {
    plain(few(0, 0, cvr_transaction_next(transaction), 0, 0))
}

fn kind(arguments: &[u8], input: &[u8]) -> Asked {
    let message = MessageHeader {
        message_type: word_at(arguments, 1),
        transaction: 0,
        service: id_at(input, 0),
        cid: word_at(arguments, 2),
        word: word_at(arguments, 3),
    };
    let answer = cvr_payload_kind(message);
    let refusal = answer.refusal;
    plain(few(refusal.number, refusal.place, answer.kind, 0, 0))
}
