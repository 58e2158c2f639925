// A question put to the library, with what is lent to it.
use crate::hosts::with_host;
use crate::messages::about_message;
use crate::modems::with_modem;
use crate::pieces::with_assembly;
use crate::pins::{receive, with_pins};
use crate::streams::with_stream;
use sample_lines::answers::{Asked, least, no_question, word_at};

// The memory that is lent: it stays from line to line.
#[derive(Drop)]
pub struct Memory {
    pub assembly: [u8; 4144],
    pub host: [u8; 6],
    pub modem: [u8; 10],
    pub pins: [u8; 748],
    pub stream: [u8; 4104],
}

impl Memory {
    pub fn new() -> Memory {
        Memory {
            assembly: [0; 4144],
            host: [0; 6],
            modem: [0; 10],
            pins: [0; 748],
            stream: [0; 4104],
        }
    }
}

// The first argument is the input's length.
pub fn ask(
    question: u8,
    arguments: &[u8; 16640],
    bytes: &[u8; 16640],
    memory: &mut Memory,
    out: &mut [u8; 16640],
) -> Asked {
    let n = least(word_at(&arguments[..], 0) as usize, 16640);
    ask_lent(question, &arguments[..], &bytes[..n], memory, &mut out[..])
}

fn ask_lent(
    question: u8,
    arguments: &[u8],
    input: &[u8],
    memory: &mut Memory,
    out: &mut [u8],
) -> Asked {
    match question {
        14 | 15 | 19 | 20 | 21 => about_message(question, arguments, input, out),
        16 | 17 | 18 => with_assembly(question, arguments, input, &mut memory.assembly[..], out),
        22 | 23 | 24 | 25 | 26 | 31 => {
            with_host(question, arguments, input, &mut memory.host[..], out)
        }
        27 | 28 | 29 | 30 | 32 => {
            with_modem(question, arguments, input, &mut memory.modem[..], out)
        }
        47 | 48 | 50 => with_pins(question, arguments, input, &mut memory.pins[..], out),
        49 => receive(
            arguments,
            input,
            &mut memory.modem[..],
            &mut memory.pins[..],
            out,
        ),
        53 | 54 | 55 => with_stream(
            question,
            arguments,
            input,
            &mut memory.stream[..],
            &mut memory.assembly[..],
            out,
        ),
        _ => no_question(),
    }
}
