// Decibels and bars: questions 33 to 35.
use c_structs::quality::ReadingInfo;
use culvertroost::quality::{cvr_bars, cvr_rsrp, cvr_snr};
use sample_lines::answers::{Asked, few, plain};

const DBM: u32 = 1;

const BELOW_RANGE: u32 = 3;

pub fn reading(question: u8, code: u32) -> Asked {
    match question {
        33 => shown(cvr_rsrp(code)),
        34 => shown(cvr_snr(code)),
        _ => bars(code),
    }
}

fn shown(answer: ReadingInfo) -> Asked {
    let refusal = answer.refusal;
    let value = value_of(answer.kind, answer.value);
    plain(few(refusal.number, refusal.place, answer.kind, value, 0))
}

// A reading that has a value shows it.
fn value_of(kind: u32, value: f32) -> u32 {
    if kind < DBM || BELOW_RANGE < kind {
        return 0;
    }
    doubled(value)
}

// Twice a value plus 1000, which is a whole number below 2000; 2000 for any other value.
fn doubled(value: f32) -> u32 {
    let sought = value * 2.0 + 1000.0;
    let mut number: f32 = 0.0;
    for i in 0..2000 {
        if number == sought {
            return i;
        }
        number += 1.0;
    }
    2000
}

fn bars(code: u32) -> Asked {
    let answer = cvr_bars(code);
    let refusal = answer.refusal;
    plain(few(
        refusal.number,
        refusal.place,
        answer.reading,
        answer.bars,
        0,
    ))
}
