// The text of a replay (docs/replay.md): one line of a station's trace in, its rows out. It neither
// reads nor writes a file; the program `replay` does.
#![tactic(auto)]

pub mod heads;
pub mod marks;

ghost use Rattle.std.specs.Prelude.{◌≡◌, ◌++◌, ◌≤◌, length, take, drop};
ghost use Rattle.wire.specs.Output.{over};
ghost use Rattle.payload.specs.Payload.{shown_of};
ghost use Rattle.rows.specs.Rows.{Put};
ghost use Rattle.trace_step.specs.Step.{step_of, state_of, front_for, Fronted};
ghost use Rattle.trace.specs.Marked.{marked, without_header};
ghost use Rattle.trace.specs.Heads.{head_of};
ghost use Rattle.trace.specs.Replay.{mark_of, fields_by, fields_in, fields_of, answer_text, columns, FrontedIn, front_in, Leaves};

use crate::heads::put_head;
use crate::marks::{header_in, put_mark, put_marked};
use assembler::door::Received;
use listing::put_payload;
use message::MessageHeader;
use payload::payload_of;
use protocol::{Refusal, Version};
use rows::put_text;
use trace_step::{Piece, Replay, step};

// What stands from line to line after this one, and the place behind its text.
#[derive(Clone, Copy)]
pub struct Listed {
    pub replay: Replay,
    pub next: usize,
}

// The names of the columns, at any place of any output.
#[tactic(auto, unfolding(crate::specs::Replay::columns))]
pub fn put_columns(out: &mut [u8], at: usize) -> usize
    ensures { Put out.old at columns out.new result }
{
    put_text(out, at, b"line\telapsed\tsender\tfield\tvalue\tplace\n")
}

// Puts the rows of a line at any place of any output. The front of `rows` has them without their
// marks then.
pub fn put_line(
    replay: Replay,
    host: &mut [u8; 4096],
    device: &mut [u8; 4096],
    number: u64,
    line: &[u8],
    rows: &mut [u8; 525312],
    out: &mut [u8],
    at: usize,
) -> Listed
    ensures { Leaves (step_of (state_of replay host.old device.old) line.now) number result host.new device.new rows.old rows.new out.old at out.new }
{
    let mut information = [0u8; 4096];
    let stepped = step(replay, host, device, line, &mut information);
    let next = put_replayed(
        number,
        stepped.replayed,
        &information,
        &mut rows[..],
        out,
        at,
    );
    Listed {
        replay: stepped.replay,
        next,
    }
}

// The rows of an answer, whose payload the front of `front` has, without their marks in `rows`, and
// with them in the output.
fn put_replayed(
    number: u64,
    replayed: Result<Piece, Refusal>,
    front: &[u8; 4096],
    rows: &mut [u8],
    out: &mut [u8],
    at: usize,
) -> usize
    requires rows_len { length rows.old ≡ 525312 }
    requires fronted_in { FrontedIn replayed front.now }
    ensures rows_after { rows.new ≡ over (head_of replayed ++ fields_of replayed (front_in replayed front.now)) rows.old }
    ensures put { Put out.old at (answer_text number replayed (front_in replayed front.now)) out.new result }
{
    let head = put_head(replayed, rows, 0);
    let end = put_fields(replayed, &front[..], rows, head);
    put_marks(number, replayed, &rows[..end], head, out, at)
}

// The rows of an answer with their marks. Those from `head` on are a listing, whose header is left out.
fn put_marks(
    number: u64,
    replayed: Result<Piece, Refusal>,
    rows: &[u8],
    head: usize,
    out: &mut [u8],
    at: usize,
) -> usize
    requires { head ≤ length rows.now }
    ensures { Put out.old at (marked (mark_of number replayed) (take head rows.now) ++ marked (mark_of number replayed) (without_header (drop head rows.now))) out.new result }
{
    let mut longest = [0; 48];
    let n = put_mark(number, replayed, &mut longest, 0);
    let mark = &longest[..n];
    let next = put_marked(mark, &rows[..head], out, at);
    let fields = &rows[head..];
    let from = header_in(fields);
    put_marked(mark, &fields[from..], out, next)
}

// The listing of the payload that a complete message shows.
#[tactic(auto, using(rows::proofs::Laws::put_start), unfolding(crate::specs::Replay::fields_of))]
fn put_fields(replayed: Result<Piece, Refusal>, front: &[u8], out: &mut [u8], at: usize) -> usize
    requires { FrontedIn replayed front.now }
    ensures { Put out.old at (fields_of replayed (front_in replayed front.now)) out.new result }
{
    match replayed {
        Err(_) => at,
        Ok(piece) => put_received(piece.version, piece.received, front, out, at),
    }
}

#[tactic(auto, using(rows::proofs::Laws::put_start), unfolding(crate::specs::Replay::fields_in))]
fn put_received(
    version: Version,
    received: Result<Received, Refusal>,
    front: &[u8],
    out: &mut [u8],
    at: usize,
) -> usize
    requires { Fronted received front.now }
    ensures { Put out.old at (fields_in version (front_for received front.now) received) out.new result }
{
    match received {
        Ok(
            Received::Complete {
                message,
                length,
                ..
            },
        ) => { put_shown_payload(version, message, &front[..length], out, at) }
        _ => at,
    }
}

#[tactic(auto, using(rows::proofs::Laws::put_start), unfolding(crate::specs::Replay::fields_by))]
fn put_shown_payload(
    version: Version,
    message: MessageHeader,
    payload: &[u8],
    out: &mut [u8],
    at: usize,
) -> usize
    ensures { Put out.old at (fields_by version payload.now (shown_of message)) out.new result }
{
    match payload_of(message) {
        Ok(Some(kind)) => put_payload(kind, version, payload, out, at),
        _ => at,
    }
}
