// The modem's end: it serves its list of services first, answers VERSION or takes another first
// command as the rule says, and then keeps the version that it settled on.
#![tactic(auto)]

ghost use Rattle.std.specs.Prelude.{◌≡◌, Err};
ghost use Rattle.protocol.specs.Verdict.{judge};
ghost use Rattle.modem.specs.Modem.{made_of, start_of, settled_number, step, failed, served, listed_stage, services_of, answer_of, give_of, can_answer, version_of_command, other_at, command_of, command_rules, receive_of};

use handshake::{Role, info_of, larger, lower, number_of, role_of, version_at, version_of};
use message::MessageHeader;
use protocol::message_type::{COMMAND, QUERY};
use protocol::service::{Kind, VERSION, extensions_id, kind_of};
use protocol::status::NO_DEVICE_SUPPORT;
use protocol::{Reason, Refusal, Verdict, Version, refuse_if};
use services_query::is_listed;

// How far the handshake is.
#[derive(Clone, Copy)]
pub enum ModemStage {
    Start,
    // The list of services was served; the first other command is awaited.
    Listed,
    Settled { version: Version },
}

// 01's end of a modem. `lists_version` says whether VERSION is in its own list of services.
#[derive(Clone, Copy)]
pub struct Modem {
    pub native: Version,
    pub advertised: Version,
    pub lists_version: bool,
    pub stage: ModemStage,
}

// What a command is answered.
#[derive(Clone, Copy)]
pub enum ModemAnswer {
    // The handshake lets the command through: it is to be served.
    Serve(Kind),
    // Status 0, with as many payload bytes at the front of the output.
    Version(usize),
    // The handshake lets the command through, but its service, or its CID, at this place is not known.
    Unknown(usize),
    // Another status, and no payload.
    Failed(u32),
}

// The end after a command, and the answer.
#[derive(Clone, Copy)]
pub struct ModemStep {
    pub modem: Modem,
    pub answer: Result<ModemAnswer, Refusal>,
}

// A modem at its start, from the numbers of its native and its advertised version and the list of
// services that it serves.
#[tactic(auto, unfolding(crate::specs::Modem::made_of, crate::specs::Modem::made_rules, handshake::specs::Versions::numbered, handshake::specs::Versions::number_verdict, protocol::specs::Verdict::judge_from, protocol::specs::Verdict::first_of, protocol::specs::Verdict::fault_if))]
pub fn make(native: u16, advertised: u16, services: &[u8]) -> Result<Modem, Refusal>
    ensures { result ≡ made_of native advertised services.now }
{
    let own = version_at(native)?;
    let said = version_at(advertised)?;
    refuse_if(native < advertised, Reason::WrongVersion, 0)?;
    let lists_version = is_listed(services, extensions_id(), VERSION)?;
    Ok(Modem {
        native: own,
        advertised: said,
        lists_version,
        stage: ModemStage::Start,
    })
}

pub fn open(modem: Modem) -> Modem
    ensures { result ≡ start_of modem }
{
    Modem {
        stage: ModemStage::Start,
        ..modem
    }
}

// CLOSE puts the handshake back as OPEN does.
pub fn close(modem: Modem) -> Modem
    ensures { result ≡ start_of modem }
{
    open(modem)
}

// The number of the version that a modem is settled at, or 0 (C interface, fixed memory).
pub fn settled_number(stage: ModemStage) -> u16
    ensures { result ≡ settled_number stage }
{
    match stage {
        ModemStage::Start | ModemStage::Listed => 0,
        ModemStage::Settled { version } => number_of(version),
    }
}

// A received message, which is to be a COMMAND of a transaction.
#[tactic(auto, unfolding(crate::specs::Modem::receive_of, crate::specs::Modem::receive_by))]
pub fn receive(
    modem: Modem,
    message: MessageHeader,
    information: &[u8],
    out: &mut [u8],
) -> ModemStep
    ensures value { result ≡ (receive_of modem message information.now out.old).step }
    ensures out_after { out.new ≡ (receive_of modem message information.now out.old).output }
{
    match judge_command(message) {
        Ok(()) => command(modem, message, information, out),
        Err(refusal) => refuse(modem, refusal),
    }
}

#[tactic(auto, unfolding(protocol::specs::Verdict::judge_from, protocol::specs::Verdict::first_of, protocol::specs::Verdict::fault_if))]
fn judge_command(message: MessageHeader) -> Verdict
    ensures { result ≡ judge (command_rules message) }
{
    refuse_if(message.message_type != COMMAND, Reason::Unknown, 0)?;
    refuse_if(message.transaction == 0, Reason::OutsideTable, 8)
}

// A command and its payload.
#[tactic(auto, unfolding(crate::specs::Modem::command_of, crate::specs::Modem::command_by))]
fn command(modem: Modem, message: MessageHeader, payload: &[u8], out: &mut [u8]) -> ModemStep
    ensures value { result ≡ (command_of modem message.service message.cid message.word payload.now out.old).step }
    ensures out_after { out.new ≡ (command_of modem message.service message.cid message.word payload.now out.old).output }
{
    let carried = kind_of(message.service, message.cid);
    match role_of(carried) {
        Role::Services => serve_list(modem, carried),
        Role::Version => take_version(modem, message.word, payload, out),
        Role::Other => take_other(modem, carried),
    }
}

// DEVICE_SERVICES, as a query or a set.
#[tactic(auto, unfolding(crate::specs::Modem::services_of))]
fn serve_list(modem: Modem, carried: Result<Kind, Refusal>) -> ModemStep
    ensures { result ≡ services_of modem carried }
{
    let stage = stage_after_list(modem.stage);
    serve(Modem { stage, ..modem }, carried)
}

fn stage_after_list(stage: ModemStage) -> ModemStage
    ensures { result ≡ listed_stage stage }
{
    match stage {
        ModemStage::Start => ModemStage::Listed,
        ModemStage::Listed | ModemStage::Settled { .. } => stage,
    }
}

// A command that is let through.
fn serve(modem: Modem, carried: Result<Kind, Refusal>) -> ModemStep
    ensures { result ≡ served modem carried }
{
    let answer = match carried {
        Ok(kind) => ModemAnswer::Serve(kind),
        Err(unknown) => ModemAnswer::Unknown(unknown.place),
    };
    ModemStep {
        modem,
        answer: Ok(answer),
    }
}

#[tactic(auto, unfolding(crate::specs::Modem::version_of_command, crate::specs::Modem::answer_by))]
fn take_version(modem: Modem, command_type: u32, payload: &[u8], out: &mut [u8]) -> ModemStep
    ensures value { result ≡ (version_of_command modem command_type payload.now out.old).step }
    ensures out_after { out.new ≡ (version_of_command modem command_type payload.now out.old).output }
{
    if !can_answer(modem, command_type) {
        return fail(modem);
    }
    match version_info::read(payload) {
        Ok(info) => {
            let native = version_of(info.bcd_mbim_extended_version);
            give_version(modem, answer_of(modem, native), out)
        }
        Err(_) => fail(modem),
    }
}

// Whether VERSION may be answered now, if its payload is good.
#[tactic(auto, unfolding(crate::specs::Modem::can_answer))]
fn can_answer(modem: Modem, command_type: u32) -> bool
    ensures { result ≡ can_answer modem command_type }
{
    matches!(modem.stage, ModemStage::Listed) && modem.lists_version && command_type == QUERY
}

// The answer to a host of a native version.
fn answer_of(modem: Modem, native: Version) -> Version
    ensures { result ≡ answer_of modem native }
{
    larger(modem.advertised, lower(native, modem.native))
}

// Writes the answer and settles there.
#[tactic(auto, unfolding(crate::specs::Modem::give_of, crate::specs::Modem::gave))]
fn give_version(modem: Modem, version: Version, out: &mut [u8]) -> ModemStep
    ensures value { result ≡ (give_of modem version out.old).step }
    ensures out_after { out.new ≡ (give_of modem version out.old).output }
{
    match version_info::write(info_of(version), out) {
        Ok(n) => ModemStep {
            modem: Modem {
                stage: ModemStage::Settled { version },
                ..modem
            },
            answer: Ok(ModemAnswer::Version(n)),
        },
        Err(refusal) => refuse(modem, refusal),
    }
}

// Any command but DEVICE_SERVICES and VERSION. The first one settles a modem that advertised 1.00.
#[tactic(auto, unfolding(crate::specs::Modem::other_at))]
fn take_other(modem: Modem, carried: Result<Kind, Refusal>) -> ModemStep
    ensures { result ≡ other_at modem.stage modem carried }
{
    match (modem.stage, modem.advertised) {
        (ModemStage::Settled { .. }, _) => serve(modem, carried),
        (ModemStage::Listed, Version::V1) => {
            let version = Version::V1;
            let stage = ModemStage::Settled { version };
            serve(Modem { stage, ..modem }, carried)
        }
        _ => fail(modem),
    }
}

fn fail(modem: Modem) -> ModemStep
    ensures { result ≡ failed modem }
{
    ModemStep {
        modem,
        answer: Ok(ModemAnswer::Failed(NO_DEVICE_SUPPORT)),
    }
}

fn refuse(modem: Modem, refusal: Refusal) -> ModemStep
    ensures { result ≡ step modem (Err refusal) }
{
    ModemStep {
        modem,
        answer: Err(refusal),
    }
}
