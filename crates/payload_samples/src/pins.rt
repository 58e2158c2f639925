// PINs: questions 42 to 46, of which 43 is by the reader's choice.
use crate::writes::end_of;
use c_structs::WrittenAnswer;
use c_structs::pins::{PinInfoAnswer, SetPinAnswer};
use culvertroost::pins::{
    cvr_pin_info_read, cvr_pin_info_write, cvr_set_pin_read, cvr_set_pin_read_with,
    cvr_set_pin_write,
};
use pin::pin_info::PinInfo;
use pin::set_pin::SetPin;
use sample_lines::answers::{Asked, few, plain, short, word_at};

pub fn pin_read(question: u8, arguments: &[u8], input: &[u8]) -> Asked {
    match question {
        42 => set_pin(cvr_set_pin_read(input)),
        43 => set_pin(cvr_set_pin_read_with(word_at(arguments, 1), input)),
        _ => pin_info(cvr_pin_info_read(input)),
    }
}

fn set_pin(answer: SetPinAnswer) -> Asked {
    let refusal = answer.refusal;
    let info = answer.info;
    let texts = answer.texts;
    let pin = texts.pin;
    let new_pin = texts.new_pin;
    plain([
        refusal.number,
        short(refusal.place),
        info.pin_type,
        info.pin_operation,
        pin.start,
        pin.length,
        new_pin.start,
        new_pin.length,
        0,
        0,
        0,
        0,
        0,
        0,
        0,
        0,
    ])
}

fn pin_info(answer: PinInfoAnswer) -> Asked {
    let refusal = answer.refusal;
    let info = answer.info;
    plain(few(
        refusal.number,
        refusal.place,
        info.pin_type,
        info.pin_state,
        info.remaining_attempts,
    ))
}

// The two texts stand in the input one after another.
pub fn set_pin_write(arguments: &[u8], input: &[u8], out: &mut [u8]) -> WrittenAnswer {
    let n = input.len();
    let new_pin = end_of(0, word_at(arguments, 4) as usize, n);
    let end = end_of(new_pin, word_at(arguments, 5) as usize, n);
    let info = SetPin {
        pin_type: word_at(arguments, 2),
        pin_operation: word_at(arguments, 3),
    };
    cvr_set_pin_write(info, &input[..new_pin], &input[new_pin..end], out)
}

pub fn pin_info_write(arguments: &[u8], out: &mut [u8]) -> WrittenAnswer {
    let info = PinInfo {
        pin_type: word_at(arguments, 2),
        pin_state: word_at(arguments, 3),
        remaining_attempts: word_at(arguments, 4),
    };
    cvr_pin_info_write(info, out)
}
