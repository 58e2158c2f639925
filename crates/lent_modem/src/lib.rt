// The modem's end in 10 bytes: its native and its advertised version, whether it lists VERSION, its
// stage and the version that it settled on, 16 bits each.
#![tactic(auto)]

ghost use Rattle.std.specs.Prelude.{◌≡◌};
ghost use Rattle.std.proofs.lemmas.List.Edits.{sets};
ghost use Rattle.wire.specs.Numbers.{u16_at};
ghost use Rattle.protocol.specs.Verdict.{judge};
ghost use Rattle.lent_modem.specs.LentModem.{stage_of, stage_number, stage_rules, modem_rules, modem_at, modem_in, modem_bytes, make_in, restart_in, receive_in};

use handshake::{number_of, version_of};
use lent_ends::{NATIVE, is_stray_version, judge_native};
use message::MessageHeader;
use modem::{Modem, ModemAnswer, ModemStage, ModemStep, settled_number};
use protocol::{Reason, Refusal, Verdict, Version, refuse_if};
use version_info::{EXTENSIONS_2_0, is_extension};
use wire::{put_u16, u16_at};

// How many bytes a modem's end takes.
pub const MODEM_SIZE: usize = 10;

const ADVERTISED: usize = 2;

const LISTS_VERSION: usize = 4;

const STAGE: usize = 6;

const VERSION: usize = 8;

// The numbers of the stages. ModemStage is of a crate below, so that no From or TryFrom of it can stand here.
const START: u16 = 0;

const LISTED: u16 = 1;

const SETTLED: u16 = 2;

// What a message is answered, and the stage of the end after it.
#[derive(Clone, Copy)]
pub struct ModemReply {
    pub answer: Result<ModemAnswer, Refusal>,
    pub stage: ModemStage,
}

// A modem at its start, from the numbers of its versions and the list of services that it serves.
#[tactic(auto, unfolding(crate::specs::LentModem::make_in, protocol::specs::Verdict::fault_if))]
pub fn make(memory: &mut [u8], native: u16, advertised: u16, services: &[u8]) -> Verdict
    ensures value { result ≡ (make_in memory.old native advertised services.now).verdict }
    ensures memory_after { memory.new ≡ (make_in memory.old native advertised services.now).memory }
{
    let modem = modem::make(native, advertised, services)?;
    refuse_if(
        memory.len() < MODEM_SIZE,
        Reason::OutputTooSmall,
        MODEM_SIZE,
    )?;
    put_modem(memory, modem);
    Ok(())
}

// OPEN and CLOSE put the end back to its start.
#[tactic(auto, unfolding(crate::specs::LentModem::restart_in))]
pub fn open(memory: &mut [u8]) -> Verdict
    ensures value { result ≡ (restart_in memory.old).verdict }
    ensures memory_after { memory.new ≡ (restart_in memory.old).memory }
{
    let modem = modem_at(memory)?;
    put_modem(memory, modem::open(modem));
    Ok(())
}

pub fn close(memory: &mut [u8]) -> Verdict
    ensures value { result ≡ (restart_in memory.old).verdict }
    ensures memory_after { memory.new ≡ (restart_in memory.old).memory }
{
    open(memory)
}

// A received message; a VERSION reply's payload is written into the output.
#[tactic(auto, unfolding(crate::specs::LentModem::receive_in))]
pub fn receive(
    memory: &mut [u8],
    message: MessageHeader,
    information: &[u8],
    out: &mut [u8],
) -> ModemReply
    ensures value { result ≡ (receive_in memory.old message information.now out.old).reply }
    ensures memory_after { memory.new ≡ (receive_in memory.old message information.now out.old).memory }
    ensures out_after { out.new ≡ (receive_in memory.old message information.now out.old).output }
{
    // A reply has the stage beside the refusal, so no `?`.
    match modem_at(memory) {
        Ok(modem) => keep(memory, modem::receive(modem, message, information, out)),
        Err(refusal) => ModemReply {
            answer: Err(refusal),
            stage: ModemStage::Start,
        },
    }
}

// The end in the memory.
#[tactic(auto, unfolding(crate::specs::LentModem::modem_in))]
pub fn modem_at(memory: &[u8]) -> Result<Modem, Refusal>
    ensures { result ≡ modem_in memory.now }
{
    judge_modem(memory)?;
    Ok(fields_at(memory))
}

// The end after a message, put back, and the answer.
fn keep(memory: &mut [u8], step: ModemStep) -> ModemReply
    ensures answer_value { (result.answer ≡ step.answer) × (result.stage ≡ step.modem.stage) }
    ensures memory_after { memory.new ≡ sets memory.old 0 (modem_bytes step.modem) }
{
    put_modem(memory, step.modem);
    ModemReply {
        answer: step.answer,
        stage: step.modem.stage,
    }
}

// Puts the end at the front of the memory.
#[tactic(auto, unfolding(crate::specs::LentModem::modem_bytes))]
pub fn put_modem(memory: &mut [u8], modem: Modem)
    ensures { memory.new ≡ sets memory.old 0 (modem_bytes modem) }
{
    let stage = modem.stage;
    put_u16(memory, NATIVE, number_of(modem.native));
    put_u16(memory, ADVERTISED, number_of(modem.advertised));
    put_u16(memory, LISTS_VERSION, modem.lists_version as u16);
    put_u16(memory, STAGE, stage_number(stage));
    put_u16(memory, VERSION, settled_number(stage));
}

// The verdict on what calls can have left.
#[tactic(auto, unfolding(protocol::specs::Verdict::judge_from, protocol::specs::Verdict::first_of, protocol::specs::Verdict::fault_if))]
fn judge_modem(memory: &[u8]) -> Verdict
    ensures { result ≡ judge (modem_rules memory.now) }
{
    let native = u16_at(memory, NATIVE);
    let advertised = u16_at(memory, ADVERTISED);
    let listed = u16_at(memory, LISTS_VERSION);
    judge_native(memory, MODEM_SIZE)?;
    refuse_if(!is_extension(advertised), Reason::Contradiction, ADVERTISED)?;
    refuse_if(native < advertised, Reason::Contradiction, ADVERTISED)?;
    refuse_if(1 < listed, Reason::Contradiction, LISTS_VERSION)?;
    judge_stage(memory, native, advertised, listed)
}

// The stage, with the version that the end settled on.
#[tactic(auto, unfolding(protocol::specs::Verdict::judge_from, protocol::specs::Verdict::first_of, protocol::specs::Verdict::fault_if))]
fn judge_stage(memory: &[u8], native: u16, advertised: u16, listed: u16) -> Verdict
    ensures { result ≡ judge (stage_rules native advertised listed (u16_at memory.now 6) (u16_at memory.now 8)) }
{
    let stage = u16_at(memory, STAGE);
    let version = u16_at(memory, VERSION);
    let settled = stage == SETTLED;
    refuse_if(SETTLED < stage, Reason::Contradiction, STAGE)?;
    refuse_if(
        is_stray_version(settled, version),
        Reason::Contradiction,
        VERSION,
    )?;
    refuse_if(native < version, Reason::Contradiction, VERSION)?;
    refuse_if(
        settled && version < advertised,
        Reason::Contradiction,
        VERSION,
    )?;
    refuse_if(
        listed == 0 && version == EXTENSIONS_2_0,
        Reason::Contradiction,
        VERSION,
    )
}

#[tactic(auto, unfolding(crate::specs::LentModem::modem_at))]
fn fields_at(memory: &[u8]) -> Modem
    ensures { result ≡ modem_at memory.now }
{
    let stage = u16_at(memory, STAGE);
    let version = u16_at(memory, VERSION);
    Modem {
        native: version_of(u16_at(memory, NATIVE)),
        advertised: version_of(u16_at(memory, ADVERTISED)),
        lists_version: u16_at(memory, LISTS_VERSION) != 0,
        stage: stage_of(stage, version_of(version)),
    }
}

fn stage_of(stage: u16, version: Version) -> ModemStage
    ensures { result ≡ stage_of stage version }
{
    match stage {
        START => ModemStage::Start,
        LISTED => ModemStage::Listed,
        _ => ModemStage::Settled { version },
    }
}

fn stage_number(stage: ModemStage) -> u16
    ensures { result ≡ stage_number stage }
{
    match stage {
        ModemStage::Start => START,
        ModemStage::Listed => LISTED,
        ModemStage::Settled { .. } => SETTLED,
    }
}
