// A station's trace, one line at a time: each piece goes to the assembler of its sender. What a line
// gives is said in values; its text is made elsewhere. The two buffers are lent, so that no line
// copies them.
#![tactic(auto)]

ghost use Rattle.std.specs.Prelude.{◌≡◌, ◌+◌, ◌-◌, ◌/◌, ◌%◌, ◌^◌, ◌≤◌, length, take, drop, if◌then◌else◌};
ghost use Rattle.wire.specs.Output.{over};
ghost use Rattle.ascii.specs.Ascii.{unhexed};
ghost use Rattle.protocol.specs.Refusal.{refusal, bad_line};
ghost use Rattle.version_info.specs.VersionInfo.{read_of};
ghost use Rattle.assembler.specs.Door.{in_place, receive_of, Delivered};
ghost use Rattle.trace_step.specs.Step.{start, by_sender, own_of, host_after, device_after, elapsed_of, is_version_reply, version_by, version_from, version_after, piece_step, step_of, state_of, kept, Fronted, front_for, Leaves};
ghost use Rattle.std.specs.Prelude.{Err};

use ascii::unhex;
use assembler::Progress;
use assembler::door::{ReceiptInPlace, Received, receive_in_place};
use handshake::version_of;
use message::{MessageHeader, is_whole_piece};
use protocol::message_type::COMMAND_DONE;
use protocol::service::{VERSION, extensions_id, is_same_id};
use protocol::status::SUCCESS;
use protocol::{Reason, Refusal, Version};
use trace_line::{Line, Sender, read_line};
use version_info::VersionInfo;

// What stands from line to line beside the two buffers: how far each sender's message has come, the
// previous counter, and the version that payloads are read at.
#[derive(Clone, Copy)]
pub struct Replay {
    pub host: Progress,
    pub device: Progress,
    pub previous: Option<u32>,
    pub version: Version,
}

// What a line gives. The version is the one that a payload in it is read at.
#[derive(Clone, Copy)]
pub struct Piece {
    pub elapsed: u32,
    pub sender: Sender,
    pub version: Version,
    pub is_whole: bool,
    pub received: Result<Received, Refusal>,
}

#[derive(Clone, Copy)]
pub struct Stepped {
    pub replay: Replay,
    pub replayed: Result<Piece, Refusal>,
}

impl Replay {
    #[tactic(auto, unfolding(assembler::specs::Assembly::empty))]
    pub fn start() -> Replay
        ensures { result ≡ kept start }
    {
        Replay {
            host: Progress::none(),
            device: Progress::none(),
            previous: None,
            version: Version::V1,
        }
    }
}

// Takes any line. A complete message's information goes to the front of `out`.
pub fn step(
    replay: Replay,
    host: &mut [u8; 4096],
    device: &mut [u8; 4096],
    line: &[u8],
    out: &mut [u8; 4096],
) -> Stepped
    ensures { Leaves (step_of (state_of replay host.old device.old) line.now) result host.new device.new out.old out.new }
{
    match read_line(line) {
        Err(column) => refuse_line(replay, column),
        Ok(good) => {
            let bytes = piece_of(line, good.from, good.digits);
            let piece = &bytes[..good.digits / 2];
            step_piece(replay, host, device, good.counter, good.sender, piece, out)
        }
    }
}

// A bad line leaves everything as it was.
fn refuse_line(replay: Replay, column: usize) -> Stepped
    ensures { result ≡ record { replay = replay; replayed = Err (refusal bad_line column) } }
{
    let refusal = Refusal {
        reason: Reason::BadLine,
        place: column,
    };
    let replayed = Err(refusal);
    Stepped { replay, replayed }
}

// The bytes that the digits of a line spell, at the front of the room for the longest piece.
fn piece_of(line: &[u8], from: usize, digits: usize) -> [u8; 256]
    requires { (from + digits ≤ length line.now) × (digits ≤ 512) }
    ensures { (take (digits / 2) result ≡ unhexed (digits / 2) (take digits (drop from line.now))) × (length result ≡ 256) }
{
    let mut bytes = [0; 256];
    unhex(&line[from..from + digits], &mut bytes);
    bytes
}

// The piece of a good line.
fn step_piece(
    replay: Replay,
    host: &mut [u8; 4096],
    device: &mut [u8; 4096],
    counter: u32,
    sender: Sender,
    piece: &[u8],
    out: &mut [u8; 4096],
) -> Stepped
    ensures { Leaves (piece_step (state_of replay host.old device.old) counter sender piece.now) result host.new device.new out.old out.new }
{
    let previous = replay.previous;
    let version = replay.version;
    let receipt = receive_from(replay, host, device, sender, piece, out);
    let received = receipt.received;
    let next = Replay {
        host: by_sender(sender, receipt.progress, replay.host),
        device: by_sender(sender, replay.device, receipt.progress),
        previous: Some(counter),
        version: version_after(sender, version, received, &out[..]),
    };
    let replayed = Ok(Piece {
        elapsed: elapsed_since(previous, counter),
        sender,
        version,
        is_whole: is_whole_piece(piece),
        received,
    });
    Stepped {
        replay: next,
        replayed,
    }
}

// The piece to its sender's assembler.
fn receive_from(
    replay: Replay,
    host: &mut [u8; 4096],
    device: &mut [u8; 4096],
    sender: Sender,
    piece: &[u8],
    out: &mut [u8; 4096],
) -> ReceiptInPlace
    ensures value { result ≡ in_place (receive_of (own_of sender (state_of replay host.old device.old)) piece.now 4096) }
    ensures host_after { host.new ≡ (host_after sender (receive_of (own_of sender (state_of replay host.old device.old)) piece.now 4096).assembly (state_of replay host.old device.old)).bytes }
    ensures device_after { device.new ≡ (device_after sender (receive_of (own_of sender (state_of replay host.old device.old)) piece.now 4096).assembly (state_of replay host.old device.old)).bytes }
    ensures out_after { out.new ≡ over (receive_of (own_of sender (state_of replay host.old device.old)) piece.now 4096).information out.old }
    ensures delivered { Delivered result.received (receive_of (own_of sender (state_of replay host.old device.old)) piece.now 4096).information (length out.old) }
{
    match sender {
        Sender::Host => receive_in_place(replay.host, host, piece, &mut out[..]),
        Sender::Device => receive_in_place(replay.device, device, piece, &mut out[..]),
    }
}

// Of two assemblies' progress the one for the sender.
fn by_sender(sender: Sender, for_host: Progress, for_device: Progress) -> Progress
    ensures { result ≡ by_sender sender for_host for_device }
{
    match sender {
        Sender::Host => for_host,
        Sender::Device => for_device,
    }
}

// The counters may have wrapped.
fn elapsed_since(previous: Option<u32>, counter: u32) -> u32
    ensures { result ≡ elapsed_of previous counter }
{
    match previous {
        None => 0,
        Some(before) => counter.wrapping_sub(before),
    }
}

// The version behind a piece of the sender. The front of `out` has a complete message's information.
fn version_after(
    sender: Sender,
    version: Version,
    received: Result<Received, Refusal>,
    out: &[u8],
) -> Version
    requires { Fronted received out.now }
    ensures { result ≡ version_after sender version received (front_for received out.now) }
{
    match sender {
        Sender::Host => version,
        Sender::Device => version_from(version, received, out),
    }
}

#[tactic(auto, unfolding(crate::specs::Step::version_from))]
fn version_from(version: Version, received: Result<Received, Refusal>, out: &[u8]) -> Version
    requires { Fronted received out.now }
    ensures { result ≡ version_from version received (front_for received out.now) }
{
    match received {
        Ok(
            Received::Complete {
                message,
                length,
                ..
            },
        ) => version_by(version, message, &out[..length]),
        _ => version,
    }
}

// The version behind a complete message of the device.
fn version_by(version: Version, message: MessageHeader, payload: &[u8]) -> Version
    ensures { result ≡ (if is_version_reply message then version_by version (read_of payload.now) else version) }
{
    if !is_version_reply(message) {
        return version;
    }
    match version_info::read(payload) {
        Ok(info) => version_of(info.bcd_mbim_extended_version),
        Err(_) => version,
    }
}

#[tactic(auto, unfolding(crate::specs::Step::is_version_reply))]
fn is_version_reply(message: MessageHeader) -> bool
    ensures { result ≡ is_version_reply message }
{
    message.message_type == COMMAND_DONE
        && message.word == SUCCESS
        && is_same_id(message.service, extensions_id())
        && message.cid == VERSION
}
