// The modem's end: questions 27 to 30 and 32.
use crate::messages::message_at;
use c_structs::RefusalInfo;
use c_structs::ends::ModemInfo;
use culvertroost::modems::{cvr_modem_close, cvr_modem_make, cvr_modem_open, cvr_modem_receive};
use protocol::service::id_at;
use sample_lines::answers::{Asked, few, half_at, least, lent, plain, short, word_at, written};
use wire::put_run;

pub fn with_modem(
    question: u8,
    arguments: &[u8],
    input: &[u8],
    modem: &mut [u8],
    out: &mut [u8],
) -> Asked {
    match question {
        27 => done(make(arguments, input, modem)),
        28 => done(cvr_modem_open(modem)),
        29 => done(cvr_modem_close(modem)),
        30 => receive(arguments, input, modem, out),
        _ => show(modem, out),
    }
}

pub fn done(refusal: RefusalInfo) -> Asked {
    plain(few(refusal.number, refusal.place, 0, 0, 0))
}

// Lends the front of the memory. The input is the list of services.
fn make(arguments: &[u8], input: &[u8], modem: &mut [u8]) -> RefusalInfo {
    let native = half_at(arguments, 1);
    let advertised = half_at(arguments, 2);
    cvr_modem_make(
        lent(modem, word_at(arguments, 3)),
        native,
        advertised,
        input,
    )
}

// The input is the service and the information.
fn receive(arguments: &[u8], input: &[u8], modem: &mut [u8], out: &mut [u8]) -> Asked {
    let message = message_at(arguments, 2, id_at(input, 0));
    let from = least(16, input.len());
    let room = lent(out, word_at(arguments, 1));
    taken(cvr_modem_receive(modem, message, &input[from..], room))
}

pub fn taken(answer: ModemInfo) -> Asked {
    let refusal = answer.refusal;
    let length = answer.length;
    let numbers = [
        refusal.number,
        short(refusal.place),
        answer.action,
        answer.status,
        answer.kind,
        answer.version as u32,
        short(answer.place),
        short(length),
        0,
        0,
        0,
        0,
        0,
        0,
        0,
        0,
    ];
    written(numbers, length)
}

fn show(modem: &[u8], out: &mut [u8]) -> Asked {
    put_run(out, 0, modem, 10);
    written([0; 16], 10)
}
