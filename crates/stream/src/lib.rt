// Messages from a stream of bytes without packet bounds: a stream is fed chunks of any length, takes
// each piece by its length field and passes it through the door. `feed` takes and gives back the stream
// by value; `feed_in_place` works on lent buffers. No header is judged here but its length field.
#![tactic(auto)]

pub mod front;

ghost use Rattle.std.specs.Prelude.{◌≡◌, length};
ghost use Rattle.wire.specs.Output.{over};
ghost use Rattle.assembler.specs.Assembly.{assembly_of};
ghost use Rattle.stream.specs.Stream.{value_door, ended_on, feed_of, empty_stream, by_value, in_place, placed, ended_in_place, passed_in_place};

use assembler::door::{ReceiptInPlace, Received, receive_in_place};
use assembler::{Assembly, Progress, clear};
use front::{Ready, prepare};
use protocol::message_type::is_whole;
use protocol::{Reason, Refusal};

// What a stream keeps beside its assembly and its buffer: how many bytes of an unfinished piece the
// buffer holds at its front, and whether a length field ended the stream.
#[derive(Clone, Copy)]
pub struct State {
    pub held: usize,
    pub ended: bool,
}

#[derive(Clone, Copy)]
pub struct Stream {
    pub assembly: Assembly,
    pub state: State,
    pub piece: [u8; 4096],
}

// Nothing is held.
const IDLE: State = State {
    held: 0,
    ended: false,
};

// The refusal of a length field that ends a stream.
const LENGTH_FAULT: Refusal = Refusal {
    reason: Reason::WrongLength,
    place: 4,
};

// What a call answers: nothing while a piece is short; what a piece is that was taken, or its refusal, after
// which the stream goes on; the refusal of a length field, which ended the stream; or one that takes nothing.
// Its refusals differ in what the stream does next, so they are no Result's.
#[derive(Clone, Copy)]
pub enum Said {
    Nothing,
    Piece(Result<Received, Refusal>),
    Ended(Refusal),
    Refused(Refusal),
}

// The stream after a call, what it answers, and how many bytes of the chunk it took.
#[derive(Clone, Copy)]
pub struct Fed {
    pub stream: Stream,
    pub said: Said,
    pub taken: usize,
}

#[derive(Clone, Copy)]
pub struct FedInPlace {
    pub progress: Progress,
    pub state: State,
    pub said: Said,
    pub taken: usize,
}

impl Stream {
    // What a reset leaves.
    #[tactic(auto, unfolding(crate::specs::Stream::empty_stream))]
    pub fn empty() -> Stream
        ensures { result ≡ empty_stream }
    {
        Stream {
            assembly: Assembly::empty(),
            state: IDLE,
            piece: [0; 4096],
        }
    }
}

// Feeds a chunk up to the first answer. A complete message's information goes to the front of `out`.
pub fn feed(stream: Stream, chunk: &[u8], out: &mut [u8]) -> Fed
    ensures value { result ≡ by_value (feed_of stream chunk.now (length out.old)) }
    ensures out_after { out.new ≡ over (feed_of stream chunk.now (length out.old)).information out.old }
{
    let mut bytes = stream.assembly.bytes;
    let mut piece = stream.piece;
    let fed = feed_in_place(
        stream.assembly.progress,
        &mut bytes,
        stream.state,
        &mut piece,
        chunk,
        out,
    );
    let assembly = Assembly {
        progress: fed.progress,
        bytes,
    };
    let stream = Stream {
        assembly,
        state: fed.state,
        piece,
    };
    Fed {
        stream,
        said: fed.said,
        taken: fed.taken,
    }
}

// The same with both buffers in place: `bytes` is the assembly's, `piece` has the bytes held.
pub fn feed_in_place(
    progress: Progress,
    bytes: &mut [u8; 4096],
    state: State,
    piece: &mut [u8; 4096],
    chunk: &[u8],
    out: &mut [u8],
) -> FedInPlace
    ensures value { result ≡ in_place (feed_of (placed progress bytes.old state piece.old) chunk.now (length out.old)) }
    ensures bytes_after { bytes.new ≡ (feed_of (placed progress bytes.old state piece.old) chunk.now (length out.old)).stream.assembly.bytes }
    ensures piece_after { piece.new ≡ (feed_of (placed progress bytes.old state piece.old) chunk.now (length out.old)).stream.piece }
    ensures out_after { out.new ≡ over (feed_of (placed progress bytes.old state piece.old) chunk.now (length out.old)).information out.old }
{
    feed_lent(progress, bytes, state, &mut piece[..], chunk, out)
}

// The core, on a piece buffer of 4,096 bytes.
fn feed_lent(
    progress: Progress,
    bytes: &mut [u8; 4096],
    state: State,
    piece: &mut [u8],
    chunk: &[u8],
    out: &mut [u8],
) -> FedInPlace
    requires { length piece.old ≡ 4096 }
    ensures value { result ≡ in_place (feed_of (placed progress bytes.old state piece.old) chunk.now (length out.old)) }
    ensures bytes_after { bytes.new ≡ (feed_of (placed progress bytes.old state piece.old) chunk.now (length out.old)).stream.assembly.bytes }
    ensures piece_after { piece.new ≡ (feed_of (placed progress bytes.old state piece.old) chunk.now (length out.old)).stream.piece }
    ensures out_after { out.new ≡ over (feed_of (placed progress bytes.old state piece.old) chunk.now (length out.old)).information out.old }
{
    match prepare(state, piece, chunk, out.len()) {
        Ready::Done { state, said, taken } => FedInPlace {
            progress,
            state,
            said,
            taken,
        },
        Ready::Ends {
            message_type,
            taken,
        } => end(progress, bytes, message_type, taken),
        Ready::InChunk(n) => {
            let receipt = receive_in_place(progress, bytes, &chunk[..n], out);
            passed(receipt, n)
        }
        Ready::InBuffer { length, taken } => {
            let receipt = receive_in_place(progress, bytes, &piece[..length], out);
            clear(&mut piece[..length]);
            passed(receipt, taken)
        }
    }
}

// A length field ended the stream; where it is no whole message's, the assembly is emptied.
#[tactic(auto, using(assembler::proofs::Laws::cleared))]
fn end(progress: Progress, bytes: &mut [u8; 4096], message_type: u32, taken: usize) -> FedInPlace
    ensures value { result ≡ ended_in_place (ended_on value_door (assembly_of progress bytes.old) message_type) taken }
    ensures bytes_after { bytes.new ≡ (ended_on value_door (assembly_of progress bytes.old) message_type).bytes }
{
    let progress = if is_whole(message_type) {
        progress
    } else {
        clear(&mut bytes[..]);
        Progress::none()
    };
    FedInPlace {
        progress,
        state: State {
            held: 0,
            ended: true,
        },
        said: Said::Ended(LENGTH_FAULT),
        taken,
    }
}

// A piece went through the door.
fn passed(receipt: ReceiptInPlace, taken: usize) -> FedInPlace
    ensures { result ≡ passed_in_place receipt taken }
{
    FedInPlace {
        progress: receipt.progress,
        state: IDLE,
        said: Said::Piece(receipt.received),
        taken,
    }
}
