// The text of a listing: one request line in, the listing of its payload out. It neither reads nor
// writes a file; the program `list` does.
#![tactic(auto)]

pub mod lines;

ghost use Rattle.std.specs.Prelude.{◌≡◌, ◌+◌, ◌≤◌, length};
ghost use Rattle.wire.specs.Output.{over};
ghost use Rattle.rows.specs.Rows.{Put};
ghost use Rattle.listing.specs.Listing.{payload_text, spelled_text, line_text};

use ascii::unhex;
use entry_rows::{services_rows, signal_rows};
use payload_rows::{packet_rows, pin_info_rows, registration_rows, set_pin_rows, version_rows};
use protocol::Version;
use protocol::service::Kind;
use request_line::{Request, request_of};
use rows::put_row;

// Puts the listing of a line at the front of the output, and answers its length.
pub fn list_line(line: &[u8], out: &mut [u8; 524288]) -> usize
    ensures value { result ≡ length (line_text line.now) }
    ensures out_after { out.new ≡ over (line_text line.now) out.old }
    ensures upper_bound { result ≤ 524288 }
{
    put_line(line, &mut out[..], 0)
}

// Puts the listing of a line at any place of any output, and answers the place behind what it put.
#[tactic(auto, unfolding(crate::specs::Listing::line_text, crate::specs::Listing::request_text, crate::specs::Listing::bad_line))]
pub fn put_line(line: &[u8], out: &mut [u8], at: usize) -> usize
    ensures { Put out.old at (line_text line.now) out.new result }
{
    match request_of(line) {
        Ok(request) => put_spelled(line, request, out, at),
        Err(column) => put_row(out, at, b"bad line", column as u64),
    }
}

// The listing of the payload that the digits of a line spell.
fn put_spelled(line: &[u8], request: Request, out: &mut [u8], at: usize) -> usize
    requires within { request.from + request.digits ≤ length line.now }
    requires short { request.digits ≤ 16384 }
    ensures { Put out.old at (spelled_text line.now request.kind request.version request.from request.digits) out.new result }
{
    let mut payload = [0u8; 8192];
    let end = request.from + request.digits;
    unhex(&line[request.from..end], &mut payload);
    let n = request.digits / 2;
    put_payload(request.kind, request.version, &payload[..n], out, at)
}

// The rows of a payload of a kind, at any place of any output: a match, since the seven take other arguments.
#[tactic(auto, unfolding(crate::specs::Listing::payload_text))]
pub fn put_payload(kind: Kind, version: Version, payload: &[u8], out: &mut [u8], at: usize) -> usize
    ensures { Put out.old at (payload_text kind version payload.now) out.new result }
{
    match kind {
        Kind::PacketService => packet_rows::put(version, payload, out, at),
        Kind::VersionInfo => version_rows::put(payload, out, at),
        Kind::RegisterState => registration_rows::put(version, payload, out, at),
        Kind::SignalState => signal_rows::put(version, payload, out, at),
        Kind::DeviceServices => services_rows::put(payload, out, at),
        Kind::SetPin => set_pin_rows::put(payload, out, at),
        Kind::PinInfo => pin_info_rows::put(payload, out, at),
    }
}
