// Which payload an assembled message shows. The payload itself is read elsewhere, at a version that
// its reader chooses.
#![tactic(auto)]

ghost use Rattle.std.specs.Prelude.{◌≡◌};
ghost use Rattle.protocol.specs.Service.{kind_of};
ghost use Rattle.payload.specs.Payload.{way_of, row_of, shown_in, shown_of};

use message::MessageHeader;
use protocol::message_type::{COMMAND, COMMAND_DONE, SET, is_fragmented};
use protocol::service::{Kind, kind_of};
use protocol::status::{FAILURE, SUCCESS};
use protocol::{Reason, Refusal, refuse_if};

// Which way a message goes: an answer is a DONE of status 0 or an indication, a failed one a DONE of
// status 2. A query is any COMMAND that is no set.
#[derive(Clone, Copy)]
enum Way {
    Query,
    Set,
    Answer,
    Failed,
    Other,
}

#[tactic(auto, unfolding(crate::specs::Payload::shown_of, crate::specs::Payload::shown_by, protocol::specs::Verdict::fault_if))]
pub fn payload_of(message: MessageHeader) -> Result<Option<Kind>, Refusal>
    ensures { result ≡ shown_of message }
{
    refuse_if(!is_fragmented(message.message_type), Reason::Unknown, 0)?;
    let kind = kind_of(message.service, message.cid)?;
    Ok(shown(way_of(message), kind))
}

#[tactic(auto, unfolding(crate::specs::Payload::way_of, crate::specs::Payload::command_way, crate::specs::Payload::done_way))]
fn way_of(message: MessageHeader) -> Way
    ensures { result ≡ way_of message }
{
    match (message.message_type, message.word) {
        (COMMAND, SET) => Way::Set,
        (COMMAND, _) => Way::Query,
        (COMMAND_DONE, SUCCESS) => Way::Answer,
        (COMMAND_DONE, FAILURE) => Way::Failed,
        (COMMAND_DONE, _) => Way::Other,
        _ => Way::Answer,
    }
}

// The table: what a CID, named by the kind that its answers carry, shows on each way.
fn shown(way: Way, kind: Kind) -> Option<Kind>
    ensures { result ≡ shown_in (row_of kind) way }
{
    match (way, kind) {
        (Way::Query, Kind::VersionInfo) => Some(Kind::VersionInfo),
        (Way::Set, Kind::VersionInfo) => Some(Kind::VersionInfo),
        (Way::Set, Kind::PinInfo) => Some(Kind::SetPin),
        (Way::Answer, Kind::SetPin) => None,
        (Way::Answer, _) => Some(kind),
        (Way::Failed, Kind::PinInfo) => Some(Kind::PinInfo),
        _ => None,
    }
}
