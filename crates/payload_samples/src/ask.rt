// A question put to the library, with what is lent to it.
use crate::pins::pin_read;
use crate::readings::reading;
use crate::reads::read;
use crate::services::{element, listed, position};
use crate::writes::write;
use sample_lines::answers::{Asked, least, lent, no_question, word_at};

// The first argument is the input's length, and the second the room that is lent.
pub fn ask(
    question: u8,
    arguments: &[u8; 16640],
    bytes: &[u8; 16640],
    out: &mut [u8; 16640],
    list: &mut [u32; 1024],
) -> Asked {
    let numbers = &arguments[..];
    let n = least(word_at(numbers, 0) as usize, 16640);
    let room = word_at(numbers, 1);
    let input = &bytes[..n];
    match question {
        1 | 3 | 5 | 7 | 9 | 36 | 37 | 38 => read(question, numbers, input, list),
        2 | 4 | 6 | 8 | 13 | 44 | 46 => {
            write(question, numbers, input, lent(&mut out[..], room))
        }
        10 | 11 | 39 | 40 => element(question, numbers, input, lent(&mut list[..], room)),
        12 | 41 => listed(question, numbers, input),
        51 | 52 => position(question, numbers, input),
        33 | 34 | 35 => reading(question, word_at(numbers, 1)),
        42 | 43 | 45 => pin_read(question, numbers, input),
        _ => no_question(),
    }
}
