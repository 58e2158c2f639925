// One request line: kind, tab, version, tab, the payload in hexadecimal, line feed.
#![tactic(auto)]

ghost use Rattle.std.specs.Prelude.{◌≡◌, ◌≤◌, Err, length};
ghost use Rattle.text_parts.specs.Words.{reach_from};
ghost use Rattle.request_line.specs.Good.{kind_text};
ghost use Rattle.request_line.specs.Request.{kind_words, version_words, request_of};

use protocol::Version;
use protocol::service::Kind;
use text_parts::{also_word, line_end_at};

// What a line asks for: its payload's digits stand from `from` on.
#[derive(Clone, Copy)]
pub struct Request {
    pub kind: Kind,
    pub version: Version,
    pub from: usize,
    pub digits: usize,
}

// The most digits of a line: those of 8,192 bytes.
const MOST_DIGITS: usize = 16384;

// The kinds, as their words are tried.
const KINDS: [Kind; 7] = [
    Kind::PacketService,
    Kind::VersionInfo,
    Kind::RegisterState,
    Kind::SignalState,
    Kind::DeviceServices,
    Kind::SetPin,
    Kind::PinInfo,
];

#[tactic(auto, unfolding(crate::specs::Request::request_of, crate::specs::Request::payload_at))]
pub fn request_of(line: &[u8]) -> Result<Request, usize>
    ensures { result ≡ request_of line.now }
{
    let kind = kind_at(line)?;
    let at = kind_text(kind).len();
    let version = version_at(line, at)?;
    let from = at + 5;
    let digits = line_end_at(line, from, MOST_DIGITS)?;
    Ok(Request {
        kind,
        version,
        from,
        digits,
    })
}

fn kind_at(line: &[u8]) -> Result<Kind, usize>
    ensures { result ≡ reach_from (Err 0) line.now 0 kind_words }
{
    let mut reached = Err(0);
    for kind in KINDS {
        reached = also_word(reached, line, 0, kind_text(kind), kind);
    }
    reached
}

// A kind's word, with its tab.
pub fn kind_text(kind: Kind) -> &'static [u8]
    ensures value { result.now ≡ kind_text kind }
    ensures short { length result.now ≤ 16 }
{
    match kind {
        Kind::PacketService => b"packet_service\t",
        Kind::VersionInfo => b"version\t",
        Kind::RegisterState => b"registration\t",
        Kind::SignalState => b"signal_state\t",
        Kind::DeviceServices => b"device_services\t",
        Kind::SetPin => b"set_pin\t",
        Kind::PinInfo => b"pin_info\t",
    }
}

fn version_at(line: &[u8], at: usize) -> Result<Version, usize>
    requires { at ≤ 16 }
    ensures { result ≡ reach_from (Err at) line.now at version_words }
{
    let first = also_word(Err(at), line, at, b"1.00\t", Version::V1);
    also_word(first, line, at, b"2.00\t", Version::V2)
}
