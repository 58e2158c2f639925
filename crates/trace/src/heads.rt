// The first rows of a line's answer: what came of the line, and a message's own numbers.
ghost use Rattle.std.specs.Prelude.{◌≡◌};
ghost use Rattle.ascii.specs.Ascii.{ascii};
ghost use Rattle.protocol.specs.Service.{id_bytes};
ghost use Rattle.rows.specs.Rows.{Put, text_row};
ghost use Rattle.request_line.specs.Good.{kind_text};
ghost use Rattle.trace.specs.Heads.{type_name, whole_word_row, whole_rows, dropped_row, fragment_rows, word_row, message_rows, version_row, shown_row, piece_rows, head_of};

use assembler::door::Received;
use message::MessageHeader;
use payload::payload_of;
use protocol::message_type::{
    CLOSE, CLOSE_DONE, COMMAND, COMMAND_DONE, FUNCTION_ERROR, HOST_ERROR, OPEN, OPEN_DONE,
};
use protocol::service::{Kind, ServiceId, put_id};
use protocol::{Refusal, Version};
use rows::{put_refusal, put_refused, put_row, put_text, put_text_row};
use trace_step::Piece;

// Like every function here it answers the place behind what it put.
#[tactic(auto, unfolding(crate::specs::Heads::head_of))]
pub fn put_head(replayed: Result<Piece, Refusal>, out: &mut [u8], at: usize) -> usize
    ensures { Put out.old at (head_of replayed) out.new result }
{
    match replayed {
        Err(refusal) => put_refusal(out, at, b"bad line", refusal),
        Ok(piece) => put_piece(piece.version, piece.is_whole, piece.received, out, at),
    }
}

#[tactic(auto, unfolding(crate::specs::Heads::piece_rows))]
fn put_piece(
    version: Version,
    is_whole: bool,
    received: Result<Received, Refusal>,
    out: &mut [u8],
    at: usize,
) -> usize
    ensures { Put out.old at (piece_rows version is_whole received) out.new result }
{
    match received {
        Ok(
            Received::Whole {
                message_type,
                transaction,
                word,
            },
        ) => put_whole(message_type, transaction, word, out, at),
        Ok(
            Received::Pending {
                message_type,
                transaction,
                dropped,
            },
        ) => put_fragment(b"pending", message_type, transaction, dropped, out, at),
        Ok(
            Received::Complete {
                message,
                length,
                dropped,
            },
        ) => {
            let next = put_message(message, length, dropped, out, at);
            put_shown(version, payload_of(message), out, next)
        }
        Err(refusal) => {
            if is_whole {
                return put_refusal(out, at, b"whole refused", refusal);
            }
            put_refusal(out, at, b"piece refused", refusal)
        }
    }
}

fn put_whole(message_type: u32, transaction: u32, word: u32, out: &mut [u8], at: usize) -> usize
    ensures { Put out.old at (whole_rows message_type transaction word) out.new result }
{
    let name = put_text(out, at, b"whole");
    let number = put_type(message_type, out, name);
    let next = put_row(out, number, b"TransactionId", transaction as u64);
    put_whole_word(message_type, word, out, next)
}

#[tactic(auto, using(rows::proofs::Laws::put_start), unfolding(crate::specs::Heads::whole_word_row))]
fn put_whole_word(message_type: u32, word: u32, out: &mut [u8], at: usize) -> usize
    ensures { Put out.old at (whole_word_row message_type word) out.new result }
{
    match message_type {
        OPEN => put_row(out, at, b"MaxControlTransfer", word as u64),
        CLOSE => at,
        OPEN_DONE | CLOSE_DONE => put_row(out, at, b"Status", word as u64),
        _ => put_row(out, at, b"ErrorStatusCode", word as u64),
    }
}

// A message of which a fragment was taken, or that is complete.
fn put_fragment(
    name: &[u8],
    message_type: u32,
    transaction: u32,
    dropped: bool,
    out: &mut [u8],
    at: usize,
) -> usize
    ensures { Put out.old at (fragment_rows name.now message_type transaction dropped) out.new result }
{
    let tab = put_text(out, at, name);
    let drop = put_type(message_type, out, tab);
    let number = put_dropped(dropped, out, drop);
    put_row(out, number, b"TransactionId", transaction as u64)
}

#[tactic(auto, using(rows::proofs::Laws::put_start), unfolding(crate::specs::Heads::dropped_row))]
fn put_dropped(dropped: bool, out: &mut [u8], at: usize) -> usize
    ensures { Put out.old at (dropped_row dropped) out.new result }
{
    if dropped {
        return put_row(out, at, b"dropped", 1);
    }
    at
}

fn put_message(
    message: MessageHeader,
    length: usize,
    dropped: bool,
    out: &mut [u8],
    at: usize,
) -> usize
    ensures { Put out.old at (message_rows message length dropped) out.new result }
{
    let message_type = message.message_type;
    let service = put_fragment(
        b"complete",
        message_type,
        message.transaction,
        dropped,
        out,
        at,
    );
    let cid = put_service(message.service, out, service);
    let word = put_row(out, cid, b"CID", message.cid as u64);
    let end = put_word(message_type, message.word, out, word);
    put_row(out, end, b"InformationBufferLength", length as u64)
}

fn put_service(service: ServiceId, out: &mut [u8], at: usize) -> usize
    ensures { Put out.old at (text_row (ascii "DeviceServiceId") (id_bytes service)) out.new result }
{
    let id = id_bytes(service);
    put_text_row(out, at, b"DeviceServiceId", &id)
}

fn id_bytes(service: ServiceId) -> [u8; 16]
    ensures { result ≡ id_bytes service }
{
    let mut bytes = [0; 16];
    put_id(&mut bytes, 0, service);
    bytes
}

// A command's type or a reply's status.
#[tactic(auto, using(rows::proofs::Laws::put_start), unfolding(crate::specs::Heads::word_row))]
fn put_word(message_type: u32, word: u32, out: &mut [u8], at: usize) -> usize
    ensures { Put out.old at (word_row message_type word) out.new result }
{
    match message_type {
        COMMAND => put_row(out, at, b"CommandType", word as u64),
        COMMAND_DONE => put_row(out, at, b"Status", word as u64),
        _ => at,
    }
}

// What a complete message shows, read at a version.
#[tactic(auto, using(rows::proofs::Laws::put_then), unfolding(crate::specs::Heads::shown_row))]
fn put_shown(
    version: Version,
    shown: Result<Option<Kind>, Refusal>,
    out: &mut [u8],
    at: usize,
) -> usize
    ensures { Put out.old at (shown_row version shown) out.new result }
{
    match shown {
        Ok(Some(kind)) => {
            let next = put_kind(kind, out, at);
            put_version(version, out, next)
        }
        Ok(None) => put_text(out, at, b"payload\tnone\n"),
        Err(refusal) => put_refused(out, at, refusal),
    }
}

fn put_kind(kind: Kind, out: &mut [u8], at: usize) -> usize
    ensures { Put out.old at (kind_text kind) out.new result }
{
    match kind {
        Kind::PacketService => put_text(out, at, b"packet_service\t"),
        Kind::VersionInfo => put_text(out, at, b"version\t"),
        Kind::RegisterState => put_text(out, at, b"registration\t"),
        Kind::SignalState => put_text(out, at, b"signal_state\t"),
        Kind::DeviceServices => put_text(out, at, b"device_services\t"),
        Kind::SetPin => put_text(out, at, b"set_pin\t"),
        Kind::PinInfo => put_text(out, at, b"pin_info\t"),
    }
}

fn put_version(version: Version, out: &mut [u8], at: usize) -> usize
    ensures { Put out.old at (version_row version) out.new result }
{
    match version {
        Version::V1 => put_text(out, at, b"1.00\n"),
        Version::V2 => put_text(out, at, b"2.00\n"),
    }
}

// A message type's name, as the value of its row.
#[tactic(auto, unfolding(crate::specs::Heads::type_name))]
fn put_type(message_type: u32, out: &mut [u8], at: usize) -> usize
    ensures { Put out.old at (type_name message_type) out.new result }
{
    match message_type {
        OPEN => put_text(out, at, b"\tOPEN\n"),
        CLOSE => put_text(out, at, b"\tCLOSE\n"),
        COMMAND => put_text(out, at, b"\tCOMMAND\n"),
        HOST_ERROR => put_text(out, at, b"\tHOST_ERROR\n"),
        OPEN_DONE => put_text(out, at, b"\tOPEN_DONE\n"),
        CLOSE_DONE => put_text(out, at, b"\tCLOSE_DONE\n"),
        COMMAND_DONE => put_text(out, at, b"\tCOMMAND_DONE\n"),
        FUNCTION_ERROR => put_text(out, at, b"\tFUNCTION_ERROR\n"),
        _ => put_text(out, at, b"\tINDICATE_STATUS\n"),
    }
}
