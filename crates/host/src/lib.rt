// The host's end: it reads the modem's list of services first, asks VERSION where the rule says so,
// and then keeps the version that it settled on until it is opened or closed again.
#![tactic(auto)]

ghost use Rattle.std.specs.Prelude.{◌≡◌, Ok};
ghost use Rattle.protocol.specs.Verdict.{judge};
ghost use Rattle.host.specs.Host.{at, step, unless_refused, unchanged, refused, settled_at, made_of, opened_of, closed_of, ask_of, list_rules, judged_list, services_reply_of, answered_at, failed_at, version_reply_of, reply_role, receive_of};

use handshake::{Role, info_of, is_above, is_later, larger, role_of, version_at, version_of};
use message::MessageHeader;
use protocol::message_type::COMMAND_DONE;
use protocol::service::{VERSION, extensions_id, kind_of};
use protocol::{Reason, Refusal, Version, refuse_if};
use services_ask::ask;

// How far the handshake is.
#[derive(Clone, Copy)]
pub enum HostStage {
    Closed,
    // Open to a modem that advertises a version; no list was accepted yet.
    Open { advertised: Version },
    // VERSION is the first command after the list, and its reply is awaited.
    AwaitsVersion { advertised: Version },
    Settled { version: Version },
}

// 01's end of a host.
#[derive(Clone, Copy)]
pub struct Host {
    pub native: Version,
    pub stage: HostStage,
}

// What a call did to the handshake.
#[derive(Clone, Copy)]
pub enum HostAnswer {
    Unchanged,
    Opened,
    AsksVersion,
    Settled(Version),
}

// The end after a call, and the call's answer.
#[derive(Clone, Copy)]
pub struct HostStep {
    pub host: Host,
    pub answer: Result<HostAnswer, Refusal>,
}

// The next command.
#[derive(Clone, Copy)]
pub enum Ask {
    // No command before the host is open (C interface: each of the four has its number there).
    Nothing,
    // DEVICE_SERVICES.
    Services,
    // VERSION as a query, with as many payload bytes at the front of the output.
    Version(usize),
    // Any, at the version settled on.
    Free(Version),
}

// A host that is not open yet, from the number of its native version.
#[tactic(auto, unfolding(crate::specs::Host::made_of, handshake::specs::Versions::numbered))]
pub fn make(native: u16) -> Result<Host, Refusal>
    ensures { result ≡ made_of native }
{
    let native = version_at(native)?;
    Ok(Host {
        native,
        stage: HostStage::Closed,
    })
}

// OPEN to a modem that advertises the version of a number.
#[tactic(auto, unfolding(crate::specs::Host::opened_of, handshake::specs::Versions::numbered))]
pub fn open(host: Host, advertised: u16) -> HostStep
    ensures { result ≡ opened_of host advertised }
{
    match version_at(advertised) {
        Ok(advertised) => go_to(host, HostStage::Open { advertised }, HostAnswer::Opened),
        Err(refusal) => refuse(host, refusal),
    }
}

pub fn close(host: Host) -> Host
    ensures { result ≡ closed_of host }
{
    Host {
        stage: HostStage::Closed,
        ..host
    }
}

// The next command; a VERSION query's payload is written into the output.
#[tactic(auto, unfolding(crate::specs::Host::ask_of))]
pub fn next_command(host: Host, out: &mut [u8]) -> Result<Ask, Refusal>
    ensures value { result ≡ (ask_of host out.old).answer }
    ensures out_after { out.new ≡ (ask_of host out.old).output }
{
    match host.stage {
        HostStage::Closed => Ok(Ask::Nothing),
        HostStage::Open { .. } => Ok(Ask::Services),
        HostStage::AwaitsVersion { .. } => {
            let n = version_info::write(info_of(host.native), out)?;
            Ok(Ask::Version(n))
        }
        HostStage::Settled { version } => Ok(Ask::Free(version)),
    }
}

// A received message. What is not a reply to DEVICE_SERVICES or VERSION changes nothing.
#[tactic(auto, unfolding(crate::specs::Host::receive_of, crate::specs::Host::receive_by))]
pub fn receive(host: Host, message: MessageHeader, information: &[u8]) -> HostStep
    ensures { result ≡ receive_of host message information.now }
{
    let heard = match reply_role(message) {
        Role::Services => services_reply(host, message.word, information),
        Role::Version => version_reply(host, message.word, information),
        Role::Other => Ok(keep(host)),
    };
    match heard {
        Ok(step) => step,
        Err(refusal) => refuse(host, refusal),
    }
}

// What a message is a reply to.
#[tactic(auto, unfolding(crate::specs::Host::reply_role))]
fn reply_role(message: MessageHeader) -> Role
    ensures { result ≡ reply_role message }
{
    if message.message_type != COMMAND_DONE {
        return Role::Other;
    }
    role_of(kind_of(message.service, message.cid))
}

// The reply to DEVICE_SERVICES: its status and payload. Only a host that waits for its list goes by it.
#[tactic(auto, unfolding(crate::specs::Host::services_reply_of, crate::specs::Host::list_reply, crate::specs::Host::list_at))]
fn services_reply(host: Host, status: u32, payload: &[u8]) -> Result<HostStep, Refusal>
    ensures { unless_refused host result ≡ services_reply_of host status payload.now }
{
    if status != 0 {
        return Ok(keep(host));
    }
    let position = ask(payload, extensions_id(), VERSION)?;
    match host.stage {
        HostStage::Open { advertised } => judge_list(host, advertised, position.is_some()),
        _ => Ok(keep(host)),
    }
}

#[tactic(auto, unfolding(crate::specs::Host::list_rules, protocol::specs::Verdict::judge_from, protocol::specs::Verdict::first_of, protocol::specs::Verdict::fault_if))]
fn judge_list(host: Host, advertised: Version, listed: bool) -> Result<HostStep, Refusal>
    ensures { unless_refused host result ≡ judged_list (judge (list_rules host.native advertised listed)) host advertised listed }
{
    refuse_if(is_above(advertised, host.native), Reason::AboveHost, 0)?;
    refuse_if(is_later(advertised) && !listed, Reason::VersionNotListed, 0)?;
    if is_later(host.native) && listed {
        let stage = HostStage::AwaitsVersion { advertised };
        return Ok(go_to(host, stage, HostAnswer::AsksVersion));
    }
    Ok(settle(host, Version::V1))
}

// The reply to VERSION: its status and payload.
#[tactic(auto, unfolding(crate::specs::Host::version_reply_of, crate::specs::Host::answered_by))]
fn version_reply(host: Host, status: u32, payload: &[u8]) -> Result<HostStep, Refusal>
    ensures { unless_refused host result ≡ version_reply_of host status payload.now }
{
    if status != 0 {
        return Ok(take_failure(host));
    }
    let info = version_info::read(payload)?;
    Ok(take_answer(host, version_of(info.bcd_mbim_extended_version)))
}

#[tactic(auto, unfolding(crate::specs::Host::answered_at))]
fn take_answer(host: Host, answered: Version) -> HostStep
    ensures { result ≡ answered_at host.stage host answered }
{
    match host.stage {
        HostStage::AwaitsVersion { advertised } => settle(host, larger(advertised, answered)),
        _ => keep(host),
    }
}

#[tactic(auto, unfolding(crate::specs::Host::failed_at))]
fn take_failure(host: Host) -> HostStep
    ensures { result ≡ failed_at host.stage host }
{
    match host.stage {
        HostStage::AwaitsVersion { advertised } => settle(host, advertised),
        _ => keep(host),
    }
}

fn settle(host: Host, version: Version) -> HostStep
    ensures { result ≡ settled_at host version }
{
    let stage = HostStage::Settled { version };
    go_to(host, stage, HostAnswer::Settled(version))
}

fn go_to(host: Host, stage: HostStage, answer: HostAnswer) -> HostStep
    ensures { result ≡ step (at host stage) (Ok answer) }
{
    HostStep {
        host: Host { stage, ..host },
        answer: Ok(answer),
    }
}

fn keep(host: Host) -> HostStep
    ensures { result ≡ unchanged host }
{
    HostStep {
        host,
        answer: Ok(HostAnswer::Unchanged),
    }
}

fn refuse(host: Host, refusal: Refusal) -> HostStep
    ensures { result ≡ refused host refusal }
{
    HostStep {
        host,
        answer: Err(refusal),
    }
}
