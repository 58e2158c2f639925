// The host's end in 6 bytes: its native version, its stage and the stage's version, 16 bits each.
#![tactic(auto)]

ghost use Rattle.std.specs.Prelude.{◌≡◌};
ghost use Rattle.std.proofs.lemmas.List.Edits.{sets};
ghost use Rattle.protocol.specs.Verdict.{judge};
ghost use Rattle.lent_host.specs.LentHost.{stage_of, stage_number, stage_version, host_rules, host_at, host_in, host_bytes, make_in, open_in, close_in, receive_in, ask_in};

use handshake::{number_of, version_of};
use host::{Ask, Host, HostAnswer, HostStage, HostStep};
use lent_ends::{NATIVE, is_stray_version, judge_native};
use message::MessageHeader;
use protocol::{Reason, Refusal, Verdict, Version, refuse_if};
use version_info::EXTENSIONS_2_0;
use wire::{put_u16, u16_at};

// How many bytes a host's end takes.
pub const HOST_SIZE: usize = 6;

const STAGE: usize = 2;

const VERSION: usize = 4;

// A closed host, from the number of its native version.
#[tactic(auto, unfolding(crate::specs::LentHost::make_in, protocol::specs::Verdict::fault_if))]
pub fn make(memory: &mut [u8], native: u16) -> Verdict
    ensures value { result ≡ (make_in memory.old native).verdict }
    ensures memory_after { memory.new ≡ (make_in memory.old native).memory }
{
    let host = host::make(native)?;
    refuse_if(memory.len() < HOST_SIZE, Reason::OutputTooSmall, HOST_SIZE)?;
    put_host(memory, host);
    Ok(())
}

// OPEN to a modem that advertises the version of a number.
#[tactic(auto, unfolding(crate::specs::LentHost::open_in))]
pub fn open(memory: &mut [u8], advertised: u16) -> Result<HostAnswer, Refusal>
    ensures value { result ≡ (open_in memory.old advertised).answer }
    ensures memory_after { memory.new ≡ (open_in memory.old advertised).memory }
{
    let host = host_at(memory)?;
    keep(memory, host::open(host, advertised))
}

#[tactic(auto, unfolding(crate::specs::LentHost::close_in))]
pub fn close(memory: &mut [u8]) -> Result<HostAnswer, Refusal>
    ensures value { result ≡ (close_in memory.old).answer }
    ensures memory_after { memory.new ≡ (close_in memory.old).memory }
{
    let host = host_at(memory)?;
    put_host(memory, host::close(host));
    Ok(HostAnswer::Unchanged)
}

// The next command; a VERSION query's payload is written into the output.
#[tactic(auto, unfolding(crate::specs::LentHost::ask_in))]
pub fn next_command(memory: &[u8], out: &mut [u8]) -> Result<Ask, Refusal>
    ensures value { result ≡ (ask_in memory.now out.old).answer }
    ensures out_after { out.new ≡ (ask_in memory.now out.old).output }
{
    let host = host_at(memory)?;
    host::next_command(host, out)
}

// A received message.
#[tactic(auto, unfolding(crate::specs::LentHost::receive_in))]
pub fn receive(
    memory: &mut [u8],
    message: MessageHeader,
    information: &[u8],
) -> Result<HostAnswer, Refusal>
    ensures value { result ≡ (receive_in memory.old message information.now).answer }
    ensures memory_after { memory.new ≡ (receive_in memory.old message information.now).memory }
{
    let host = host_at(memory)?;
    keep(memory, host::receive(host, message, information))
}

#[tactic(auto, unfolding(crate::specs::LentHost::host_in))]
fn host_at(memory: &[u8]) -> Result<Host, Refusal>
    ensures { result ≡ host_in memory.now }
{
    judge_host(memory)?;
    Ok(fields_at(memory))
}

// The verdict on what calls can have left.
#[tactic(auto, unfolding(protocol::specs::Verdict::judge_from, protocol::specs::Verdict::first_of, protocol::specs::Verdict::fault_if))]
fn judge_host(memory: &[u8]) -> Verdict
    ensures { result ≡ judge (host_rules memory.now) }
{
    let native = u16_at(memory, NATIVE);
    let stage = u16_at(memory, STAGE);
    let version = u16_at(memory, VERSION);
    judge_native(memory, HOST_SIZE)?;
    refuse_if(SETTLED < stage, Reason::Contradiction, STAGE)?;
    refuse_if(
        stage == AWAITS_VERSION && native < EXTENSIONS_2_0,
        Reason::Contradiction,
        STAGE,
    )?;
    refuse_if(
        is_stray_version(stage != CLOSED, version),
        Reason::Contradiction,
        VERSION,
    )?;
    refuse_if(
        stage == SETTLED && native < version,
        Reason::Contradiction,
        VERSION,
    )
}

#[tactic(auto, unfolding(crate::specs::LentHost::host_at))]
fn fields_at(memory: &[u8]) -> Host
    ensures { result ≡ host_at memory.now }
{
    let stage = u16_at(memory, STAGE);
    let version = u16_at(memory, VERSION);
    Host {
        native: version_of(u16_at(memory, NATIVE)),
        stage: stage_of(stage, version_of(version)),
    }
}

// The end after a call, put back, and the call's answer.
fn keep(memory: &mut [u8], step: HostStep) -> Result<HostAnswer, Refusal>
    ensures value { result ≡ step.answer }
    ensures memory_after { memory.new ≡ sets memory.old 0 (host_bytes step.host) }
{
    put_host(memory, step.host);
    step.answer
}

// Puts the end at the front of the memory.
#[tactic(auto, unfolding(crate::specs::LentHost::host_bytes))]
fn put_host(memory: &mut [u8], host: Host)
    ensures { memory.new ≡ sets memory.old 0 (host_bytes host) }
{
    let stage = host.stage;
    put_u16(memory, NATIVE, number_of(host.native));
    put_u16(memory, STAGE, stage_number(stage));
    put_u16(memory, VERSION, stage_version(stage));
}

// The numbers of the stages. HostStage is of a crate below, so that no From or TryFrom of it can stand here.
const CLOSED: u16 = 0;

const OPEN: u16 = 1;

const AWAITS_VERSION: u16 = 2;

const SETTLED: u16 = 3;

fn stage_of(stage: u16, version: Version) -> HostStage
    ensures { result ≡ stage_of stage version }
{
    match stage {
        CLOSED => HostStage::Closed,
        OPEN => HostStage::Open {
            advertised: version,
        },
        AWAITS_VERSION => HostStage::AwaitsVersion {
            advertised: version,
        },
        _ => HostStage::Settled { version },
    }
}

fn stage_number(stage: HostStage) -> u16
    ensures { result ≡ stage_number stage }
{
    match stage {
        HostStage::Closed => CLOSED,
        HostStage::Open { .. } => OPEN,
        HostStage::AwaitsVersion { .. } => AWAITS_VERSION,
        HostStage::Settled { .. } => SETTLED,
    }
}

fn stage_version(stage: HostStage) -> u16
    ensures { result ≡ stage_version stage }
{
    match stage {
        HostStage::Closed => 0,
        HostStage::Open { advertised } | HostStage::AwaitsVersion { advertised } => {
            number_of(advertised)
        }
        HostStage::Settled { version } => number_of(version),
    }
}
