// The table of PINs, alone and with the modem's end: questions 47 to 50.
ghost use Rattle.std.specs.Prelude.{◌≤◌};

use crate::messages::message_at;
use crate::modems::{done, taken};
use c_structs::RefusalInfo;
use c_structs::pins::EntryAnswer;
use culvertroost::pins::{cvr_pin_enter, cvr_pin_make, cvr_pin_receive};
use pin_entry::starts::{PinStart, PinStarts};
use protocol::service::id_at;
use sample_lines::answers::{Asked, least, lent, plain, short, word_at, written};
use wire::put_run;

const PINS_SIZE: usize = 748;

pub fn with_pins(
    question: u8,
    arguments: &[u8],
    input: &[u8],
    pins: &mut [u8],
    out: &mut [u8],
) -> Asked {
    match question {
        47 => done(make(arguments, input, pins)),
        48 => entry(cvr_pin_enter(pins, input)),
        _ => show(pins, out),
    }
}

// The input is the service and the information.
pub fn receive(
    arguments: &[u8],
    input: &[u8],
    modem: &mut [u8],
    pins: &mut [u8],
    out: &mut [u8],
) -> Asked {
    let message = message_at(arguments, 2, id_at(input, 0));
    let from = least(16, input.len());
    let room = lent(out, word_at(arguments, 1));
    taken(cvr_pin_receive(modem, pins, message, &input[from..], room))
}

// Lends the front of the memory.
fn make(arguments: &[u8], input: &[u8], pins: &mut [u8]) -> RefusalInfo {
    let starts = starts_of(arguments, input);
    cvr_pin_make(lent(pins, word_at(arguments, 1)), starts)
}

fn starts_of(arguments: &[u8], input: &[u8]) -> PinStarts {
    let first = start_at(arguments, input, 0);
    let mut rows = [first; 17];
    for i in 1..17 {
        rows[i as usize] = start_at(arguments, input, i);
    }
    PinStarts { rows }
}

fn start_at(arguments: &[u8], input: &[u8], i: u32) -> PinStart
    requires { i ≤ 16 }
{
    let place = 2 + 4 * i;
    let secret = secret_at(input, 32 * (i as usize));
    PinStart {
        present: word_at(arguments, place),
        enabled: word_at(arguments, place + 1),
        starting_tries: word_at(arguments, place + 2),
        secret_length: word_at(arguments, place + 3),
        secret,
    }
}

fn secret_at(input: &[u8], place: usize) -> [u8; 32] {
    let mut secret = [0u8; 32];
    let from = least(place, input.len());
    put_run(&mut secret, 0, &input[from..], 32);
    secret
}

fn entry(answer: EntryAnswer) -> Asked {
    let refusal = answer.refusal;
    let info = answer.info;
    plain([
        refusal.number,
        short(refusal.place),
        answer.status,
        answer.shown,
        info.pin_type,
        info.pin_state,
        info.remaining_attempts,
        0,
        0,
        0,
        0,
        0,
        0,
        0,
        0,
        0,
    ])
}

fn show(pins: &[u8], out: &mut [u8]) -> Asked {
    put_run(out, 0, pins, PINS_SIZE);
    written([0; 16], PINS_SIZE)
}
