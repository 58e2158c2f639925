// Answers of the handshake's ends as plain members.
ghost use Rattle.std.specs.Prelude.{◌≡◌};
ghost use Rattle.c_structs.specs.Answers.{no_refusal};
ghost use Rattle.c_structs.specs.Ends.{event_info, host_info, command_info, ask_info, failed_info, modem_info};

use crate::messages::kind_number;
use crate::{RefusalInfo, no_refusal};
use handshake::number_of;
use host::{Ask, HostAnswer};
use modem::{ModemAnswer, ModemStage, settled_number};
use protocol::Refusal;
use protocol::status::NO_DEVICE_SUPPORT;

// What a call did to the host's end: 0 nothing, 1 opened, 2 asks VERSION, 3 settled at the version.
#[repr(C)]
#[derive(Clone, Copy)]
pub struct HostInfo {
    pub refusal: RefusalInfo,
    pub event: u32,
    pub version: u16,
}

// The host's next command: 0 none, 1 DEVICE_SERVICES, 2 VERSION with so many payload bytes, 3 any at
// the version.
#[repr(C)]
#[derive(Clone, Copy)]
pub struct AskInfo {
    pub refusal: RefusalInfo,
    pub command: u32,
    pub version: u16,
    pub length: usize,
}

// What the modem does with a command: 1 serves the kind, 2 answered VERSION with so many payload bytes,
// 3 failed it with the status, 4 doesn't know its service or CID, which stands at the place. The version
// is the one that it is settled at, or 0.
#[repr(C)]
#[derive(Clone, Copy)]
pub struct ModemInfo {
    pub refusal: RefusalInfo,
    pub action: u32,
    pub status: u32,
    pub kind: u32,
    pub version: u16,
    pub place: usize,
    pub length: usize,
}

impl From<Result<HostAnswer, Refusal>> for HostInfo {
    #[tactic(auto, unfolding(crate::specs::Ends::host_info))]
    fn from(answer: Result<HostAnswer, Refusal>) -> HostInfo
        ensures { result ≡ host_info answer }
    {
        match answer {
            Ok(HostAnswer::Unchanged) => event_info(0, 0),
            Ok(HostAnswer::Opened) => event_info(1, 0),
            Ok(HostAnswer::AsksVersion) => event_info(2, 0),
            Ok(HostAnswer::Settled(version)) => event_info(3, number_of(version)),
            Err(refusal) => HostInfo {
                refusal: RefusalInfo::from(refusal),
                event: 0,
                version: 0,
            },
        }
    }
}

impl From<Result<Ask, Refusal>> for AskInfo {
    #[tactic(auto, unfolding(crate::specs::Ends::ask_info))]
    fn from(ask: Result<Ask, Refusal>) -> AskInfo
        ensures { result ≡ ask_info ask }
    {
        match ask {
            Ok(Ask::Nothing) => command_info(0, 0, 0),
            Ok(Ask::Services) => command_info(1, 0, 0),
            Ok(Ask::Version(length)) => command_info(2, 0, length),
            Ok(Ask::Free(version)) => command_info(3, number_of(version), 0),
            Err(refusal) => AskInfo {
                refusal: RefusalInfo::from(refusal),
                command: 0,
                version: 0,
                length: 0,
            },
        }
    }
}

// What a message is answered, by an end that is then at the stage.
#[tactic(auto, unfolding(crate::specs::Ends::modem_info))]
pub fn modem_info(answer: Result<ModemAnswer, Refusal>, stage: ModemStage) -> ModemInfo
    ensures { result ≡ modem_info answer stage }
{
    let version = settled_number(stage);
    match answer {
        Ok(ModemAnswer::Serve(kind)) => ModemInfo {
            refusal: no_refusal(),
            action: 1,
            status: 0,
            kind: kind_number(kind),
            version,
            place: 0,
            length: 0,
        },
        Ok(ModemAnswer::Version(length)) => ModemInfo {
            refusal: no_refusal(),
            action: 2,
            status: 0,
            kind: 0,
            version,
            place: 0,
            length,
        },
        Ok(ModemAnswer::Failed(status)) => failed_info(3, status, version, 0),
        Ok(ModemAnswer::Unknown(place)) => failed_info(4, NO_DEVICE_SUPPORT, version, place),
        Err(refusal) => ModemInfo {
            refusal: RefusalInfo::from(refusal),
            action: 0,
            status: 0,
            kind: 0,
            version: 0,
            place: 0,
            length: 0,
        },
    }
}

// A command that is to be answered by a status alone.
fn failed_info(action: u32, status: u32, version: u16, place: usize) -> ModemInfo
    ensures { result ≡ failed_info action status version place }
{
    ModemInfo {
        refusal: no_refusal(),
        action,
        status,
        kind: 0,
        version,
        place,
        length: 0,
    }
}

fn event_info(event: u32, version: u16) -> HostInfo
    ensures { result ≡ event_info event version }
{
    HostInfo {
        refusal: no_refusal(),
        event,
        version,
    }
}

fn command_info(command: u32, version: u16, length: usize) -> AskInfo
    ensures { result ≡ command_info no_refusal command version length }
{
    AskInfo {
        refusal: no_refusal(),
        command,
        version,
        length,
    }
}
