// A call up to the door, for every form of a stream: what stands at the front of the bytes held and
// then the chunk, with the buffer made ready for it. Nothing is known here of the assembly.
ghost use Rattle.std.specs.Prelude.{◌≡◌, ◌++◌, ◌+◌, ◌-◌, ◌≤◌, min, ltb, length, get_or, take};
ghost use Rattle.wire.specs.Numbers.{u32_at};
ghost use Rattle.stream.specs.Stream.{wrong_start, next_of};
ghost use Rattle.stream.specs.Ready.{done_by, prepared_by, prepared_of};

use crate::{LENGTH_FAULT, Said, State};
use assembler::clear;
use message::{MOST_TRANSFER, whole_length};
use protocol::message_type::is_whole;
use protocol::{MOST_INFORMATION, Reason, Refusal};
use wire::{byte_at, put_bytes, u32_at};

// The refusal of an output or a buffer that is too small.
const TOO_SMALL: Refusal = Refusal {
    reason: Reason::OutputTooSmall,
    place: MOST_INFORMATION,
};

// What is left to do: nothing, a stream to end beside the type whose length field ended it, or a piece
// to pass on, which lies at the front of the chunk or of the buffer.
#[derive(Clone, Copy)]
pub enum Ready {
    Done {
        state: State,
        said: Said,
        taken: usize,
    },
    Ends {
        message_type: u32,
        taken: usize,
    },
    InChunk(usize),
    InBuffer {
        length: usize,
        taken: usize,
    },
}

// What stands at the front of a stream: an unfinished piece, a length field that ends the stream beside
// the type given, or a piece of so many bytes.
#[derive(Clone, Copy)]
pub enum Next {
    Short,
    Ends(u32),
    Piece(usize),
}

// `piece` holds the bytes of an unfinished piece; a buffer of fewer than 4,096 bytes is refused as an
// output is. `room` is that of the output.
#[tactic(auto, using(crate::proofs::Laws::take_least), unfolding(crate::specs::Ready::prepared_of))]
pub fn prepare(state: State, piece: &mut [u8], chunk: &[u8], room: usize) -> Ready
    ensures value { result ≡ (prepared_of state piece.old chunk.now room).ready }
    ensures piece_after { piece.new ≡ (prepared_of state piece.old chunk.now room).piece }
{
    if room < MOST_INFORMATION || piece.len() < MOST_TRANSFER {
        return done(state, Said::Refused(TOO_SMALL));
    }
    if state.ended {
        return done(state, Said::Ended(LENGTH_FAULT));
    }
    let held = state.held.min(piece.len());
    prepare_open(held, piece, chunk)
}

// Nothing is taken and nothing changes.
fn done(state: State, said: Said) -> Ready
    ensures { result ≡ done_by state said }
{
    Ready::Done {
        state,
        said,
        taken: 0,
    }
}

// A stream that has not ended, with room.
#[tactic(auto, using(crate::proofs::Giving::short_fits, crate::proofs::Giving::piece_there), unfolding(crate::specs::Ready::prepared_by))]
fn prepare_open(held: usize, piece: &mut [u8], chunk: &[u8]) -> Ready
    requires { (4096 ≤ length piece.old) × (held ≤ length piece.old) }
    ensures value { result ≡ (prepared_by (take held piece.old) piece.old chunk.now (next_of (take held piece.old ++ chunk.now))).ready }
    ensures piece_after { piece.new ≡ (prepared_by (take held piece.old) piece.old chunk.now (next_of (take held piece.old ++ chunk.now))).piece }
{
    match next_in(piece, held, chunk) {
        Next::Short => {
            put_bytes(piece, held, chunk);
            let state = State {
                held: held + chunk.len(),
                ended: false,
            };
            Ready::Done {
                state,
                said: Said::Nothing,
                taken: chunk.len(),
            }
        }
        Next::Ends(message_type) => {
            clear(&mut piece[..held]);
            Ready::Ends {
                message_type,
                taken: 8usize.saturating_sub(held),
            }
        }
        Next::Piece(n) => {
            if held == 0 {
                return Ready::InChunk(n);
            }
            let rest = n.saturating_sub(held);
            put_bytes(piece, held, &chunk[..rest]);
            Ready::InBuffer {
                length: n,
                taken: rest,
            }
        }
    }
}

// What stands at the front of the bytes held and then the chunk.
#[tactic(auto, using(crate::proofs::Laws::take_least, crate::proofs::Laws::held_length), unfolding(crate::specs::Stream::next_of))]
pub fn next_in(piece: &[u8], held: usize, chunk: &[u8]) -> Next
    ensures { result ≡ next_of (take held piece.now ++ chunk.now) }
{
    let held = held.min(piece.len());
    if is_short(held, chunk.len(), 8) {
        return Next::Short;
    }
    let message_type = word_in(piece, held, chunk, 0);
    let length = word_in(piece, held, chunk, 4) as usize;
    if is_wrong_start(message_type, length) {
        return Next::Ends(message_type);
    }
    if is_short(held, chunk.len(), length) {
        return Next::Short;
    }
    Next::Piece(length)
}

// Whether a and b bytes are fewer than n; their sum need not fit.
fn is_short(a: usize, b: usize, n: usize) -> bool
    ensures { result ≡ ltb (a + b) n }
{
    b < n.saturating_sub(a)
}

// Whether a length field beside its type ends the stream.
#[tactic(auto, unfolding(crate::specs::Stream::wrong_start))]
fn is_wrong_start(message_type: u32, length: usize) -> bool
    ensures { result ≡ wrong_start message_type length }
{
    if is_whole(message_type) {
        length != whole_length(message_type) as usize
    } else {
        length < 20 || MOST_TRANSFER < length
    }
}

// The number in the four bytes from `at` of the bytes held and then the chunk. Only one that begins in
// the first and ends in the second is read byte by byte.
#[tactic(auto, using(crate::proofs::Laws::word_held, crate::proofs::Laws::word_fed, wire::proofs::Laws::four), unfolding(wire::specs::Numbers::u32_at))]
fn word_in(piece: &[u8], held: usize, chunk: &[u8], at: usize) -> u32
    requires { (held ≤ length piece.now) × (at ≤ 4) }
    ensures { result ≡ u32_at (take held piece.now ++ chunk.now) at }
{
    if held <= at {
        return u32_at(chunk, at - held);
    }
    if at + 4 <= held {
        return u32_at(piece, at);
    }
    let a = byte_in(piece, held, chunk, at) as u32;
    let b = byte_in(piece, held, chunk, at + 1) as u32;
    let c = byte_in(piece, held, chunk, at + 2) as u32;
    let d = byte_in(piece, held, chunk, at + 3) as u32;
    a + 256 * (b + 256 * (c + 256 * d))
}

#[tactic(auto, using(crate::proofs::Laws::byte_held, crate::proofs::Laws::byte_fed))]
fn byte_in(piece: &[u8], held: usize, chunk: &[u8], at: usize) -> u8
    requires { held ≤ length piece.now }
    ensures { result ≡ get_or (take held piece.now ++ chunk.now) at 0 }
{
    if at < held {
        piece[at]
    } else {
        byte_at(chunk, at - held)
    }
}
