// The host's end: questions 22 to 26 and 31.
use crate::messages::message_at;
use c_structs::ends::HostInfo;
use culvertroost::hosts::{
    cvr_host_close, cvr_host_make, cvr_host_next_command, cvr_host_open, cvr_host_receive,
};
use protocol::service::id_at;
use sample_lines::answers::{Asked, few, half_at, least, lent, plain, short, word_at, written};
use wire::put_run;

pub fn with_host(
    question: u8,
    arguments: &[u8],
    input: &[u8],
    host: &mut [u8],
    out: &mut [u8],
) -> Asked {
    match question {
        22 => make(half_at(arguments, 1), host),
        23 => event(cvr_host_open(host, half_at(arguments, 1))),
        24 => event(cvr_host_close(host)),
        25 => next_command(arguments, host, out),
        26 => receive(arguments, input, host),
        _ => show(host, out),
    }
}

fn make(native: u16, host: &mut [u8]) -> Asked {
    let refusal = cvr_host_make(host, native);
    plain(few(refusal.number, refusal.place, 0, 0, 0))
}

fn event(answer: HostInfo) -> Asked {
    let refusal = answer.refusal;
    let version = answer.version as u32;
    plain(few(refusal.number, refusal.place, answer.event, version, 0))
}

fn next_command(arguments: &[u8], host: &[u8], out: &mut [u8]) -> Asked {
    let answer = cvr_host_next_command(host, lent(out, word_at(arguments, 1)));
    let refusal = answer.refusal;
    let length = answer.length;
    let numbers = few(
        refusal.number,
        refusal.place,
        answer.command,
        answer.version as u32,
        short(length),
    );
    written(numbers, length)
}

// The input is the service and the information.
fn receive(arguments: &[u8], input: &[u8], host: &mut [u8]) -> Asked {
    let message = message_at(arguments, 1, id_at(input, 0));
    let from = least(16, input.len());
    event(cvr_host_receive(host, message, &input[from..]))
}

fn show(host: &[u8], out: &mut [u8]) -> Asked {
    put_run(out, 0, host, 6);
    written([0; 16], 6)
}
