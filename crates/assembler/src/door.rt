// The one door for a received piece: a whole message is judged by itself and leaves the assembly as it
// is; any other piece is a fragment, and is fed.
ghost use Rattle.std.specs.Prelude.{◌≡◌, length};
ghost use Rattle.wire.specs.Output.{over};
ghost use Rattle.assembler.specs.Assembly.{assembly_of};
ghost use Rattle.assembler.specs.Door.{whole_shown, fed_shown, by_value, in_place, receive_of, Delivered};

use crate::{Answer, Assembly, Progress, feed_in_place};
use message::{MessageHeader, Whole, is_whole_piece, judge_whole};
use protocol::Refusal;
use wire::u32_at;

// What a piece is. `dropped` says that an unfinished message was dropped for this one.
#[derive(Clone, Copy)]
pub enum Received {
    Whole {
        message_type: u32,
        transaction: u32,
        word: u32,
    },
    Pending {
        message_type: u32,
        transaction: u32,
        dropped: bool,
    },
    Complete {
        message: MessageHeader,
        length: usize,
        dropped: bool,
    },
}

// The assembly after a piece, and what the piece is.
#[derive(Clone, Copy)]
pub struct Receipt {
    pub assembly: Assembly,
    pub received: Result<Received, Refusal>,
}

#[derive(Clone, Copy)]
pub struct ReceiptInPlace {
    pub progress: Progress,
    pub received: Result<Received, Refusal>,
}

// Takes any piece. A complete message's information goes to the front of `out`.
pub fn receive(assembly: Assembly, piece: &[u8], out: &mut [u8]) -> Receipt
    ensures value { result ≡ by_value (receive_of assembly piece.now (length out.old)) }
    ensures out_after { out.new ≡ over (receive_of assembly piece.now (length out.old)).information out.old }
{
    let mut bytes = assembly.bytes;
    let receipt = receive_in_place(assembly.progress, &mut bytes, piece, out);
    let assembly = Assembly {
        progress: receipt.progress,
        bytes,
    };
    Receipt {
        assembly,
        received: receipt.received,
    }
}

// The same with the buffer in place.
#[tactic(auto, using(crate::proofs::Delivered::whole_delivered, crate::proofs::Delivered::shown_delivers), unfolding(crate::specs::Door::receive_of, wire::specs::Output::over))]
pub fn receive_in_place(
    progress: Progress,
    bytes: &mut [u8; 4096],
    piece: &[u8],
    out: &mut [u8],
) -> ReceiptInPlace
    ensures value { result ≡ in_place (receive_of (assembly_of progress bytes.old) piece.now (length out.old)) }
    ensures bytes_after { bytes.new ≡ (receive_of (assembly_of progress bytes.old) piece.now (length out.old)).assembly.bytes }
    ensures out_after { out.new ≡ over (receive_of (assembly_of progress bytes.old) piece.now (length out.old)).information out.old }
    ensures delivered { Delivered result.received (receive_of (assembly_of progress bytes.old) piece.now (length out.old)).information (length out.old) }
{
    if is_whole_piece(piece) {
        return ReceiptInPlace {
            progress,
            received: show_whole(piece),
        };
    }
    let fed = feed_in_place(progress, bytes, piece, out);
    ReceiptInPlace {
        progress: fed.progress,
        received: show_fed(piece, fed.answer),
    }
}

// A piece judged as a whole message.
#[tactic(auto, unfolding(crate::specs::Door::whole_shown))]
pub fn show_whole(piece: &[u8]) -> Result<Received, Refusal>
    ensures { result ≡ whole_shown piece.now }
{
    let Whole {
        message_type,
        transaction,
        word,
    } = judge_whole(piece)?;
    Ok(Received::Whole {
        message_type,
        transaction,
        word,
    })
}

// What feeding a piece was answered, with the piece's own type and transaction.
#[tactic(auto, unfolding(crate::specs::Door::fed_shown))]
pub fn show_fed(piece: &[u8], answer: Result<Answer, Refusal>) -> Result<Received, Refusal>
    ensures { result ≡ fed_shown piece.now answer }
{
    let received = match answer? {
        Answer::Pending { dropped } => Received::Pending {
            message_type: u32_at(piece, 0),
            transaction: u32_at(piece, 8),
            dropped,
        },
        Answer::Complete {
            message,
            length,
            dropped,
        } => Received::Complete {
            message,
            length,
            dropped,
        },
    };
    Ok(received)
}
