// The byte stream: questions 53 to 55.
use crate::modems::done;
use crate::pieces::received;
use c_structs::RefusalInfo;
use c_structs::streams::StreamInfo;
use culvertroost::streams::{cvr_stream_feed, cvr_stream_reset};
use sample_lines::answers::{Asked, lent, short, word_at, written};
use wire::put_run;

const STREAM_SIZE: usize = 4104;

pub fn with_stream(
    question: u8,
    arguments: &[u8],
    input: &[u8],
    stream: &mut [u8],
    assembly: &mut [u8],
    out: &mut [u8],
) -> Asked {
    match question {
        53 => fed(feed(arguments, input, stream, assembly, out)),
        54 => done(reset(arguments, stream, assembly)),
        _ => show(stream, out),
    }
}

// Lends the front of both memories.
fn feed(
    arguments: &[u8],
    input: &[u8],
    stream: &mut [u8],
    assembly: &mut [u8],
    out: &mut [u8],
) -> StreamInfo {
    cvr_stream_feed(
        lent(stream, word_at(arguments, 2)),
        lent(assembly, word_at(arguments, 3)),
        input,
        lent(out, word_at(arguments, 1)),
    )
}

// The piece's numbers, and behind them the stream's own two.
fn fed(answer: StreamInfo) -> Asked {
    let mut asked = received(answer.piece);
    asked.numbers[13] = short(answer.taken);
    asked.numbers[14] = answer.ended;
    asked
}

// Lends the front of both memories.
fn reset(arguments: &[u8], stream: &mut [u8], assembly: &mut [u8]) -> RefusalInfo {
    cvr_stream_reset(
        lent(stream, word_at(arguments, 1)),
        lent(assembly, word_at(arguments, 2)),
    )
}

fn show(stream: &[u8], out: &mut [u8]) -> Asked {
    put_run(out, 0, stream, STREAM_SIZE);
    written([0; 16], STREAM_SIZE)
}
