// Received pieces and the assembly: questions 16 to 18.
use c_structs::messages::ReceiveInfo;
use culvertroost::assembly::{cvr_assembly_empty, cvr_receive};
use sample_lines::answers::{Asked, few, lent, plain, short, word_at, written};
use wire::put_run;

const ASSEMBLY_SIZE: usize = 4144;

pub fn with_assembly(
    question: u8,
    arguments: &[u8],
    input: &[u8],
    assembly: &mut [u8],
    out: &mut [u8],
) -> Asked {
    match question {
        16 => received(receive(arguments, input, assembly, out)),
        17 => empty(assembly),
        _ => show(assembly, out),
    }
}

// Lends the front of the memory.
fn receive(arguments: &[u8], input: &[u8], assembly: &mut [u8], out: &mut [u8]) -> ReceiveInfo {
    let room = lent(out, word_at(arguments, 1));
    cvr_receive(lent(assembly, word_at(arguments, 2)), input, room)
}

pub fn received(answer: ReceiveInfo) -> Asked {
    let refusal = answer.refusal;
    let message = answer.message;
    let service = message.service;
    let length = answer.length;
    let numbers = [
        refusal.number,
        short(refusal.place),
        answer.received,
        answer.dropped,
        message.message_type,
        message.transaction,
        service.word0,
        service.word1,
        service.word2,
        service.word3,
        message.cid,
        message.word,
        short(length),
        0,
        0,
        0,
    ];
    written(numbers, length)
}

fn empty(assembly: &mut [u8]) -> Asked {
    let refusal = cvr_assembly_empty(assembly);
    plain(few(refusal.number, refusal.place, 0, 0, 0))
}

fn show(assembly: &[u8], out: &mut [u8]) -> Asked {
    put_run(out, 0, assembly, ASSEMBLY_SIZE);
    written([0; 16], ASSEMBLY_SIZE)
}
