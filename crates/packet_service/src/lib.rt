// The PACKET_SERVICE payload: its record, and a reader and a writer of both forms.
#![tactic(auto)]

ghost use Rattle.std.specs.Prelude.{◌≡◌};
ghost use Rattle.std.proofs.lemmas.List.Edits.{sets};
ghost use Rattle.protocol.specs.Verdict.{exact_length, judge};
ghost use Rattle.packet_service.specs.PacketService.{length_of, version_of, form_at, record_at, packet_class, unattached, stray_range, later_rules, verdict_of, read_of, shared_bytes, bytes_of, write_of};

use protocol::data_class::is_one_class_or_none;
use protocol::{Reason, Refusal, Verdict, Version, Written, judge_exact_length, refuse_if};
use wire::{put_u32, put_u64, u32_at, u64_at};

// What only one form has.
#[derive(Clone, Copy)]
pub enum PacketForm {
    V1 {
        highest_available_data_class: u32,
    },
    V2 {
        current_data_class: u32,
        frequency_range: u32,
    },
}

#[derive(Clone, Copy)]
pub struct PacketService {
    pub nw_error: u32,
    pub packet_service_state: u32,
    pub uplink_speed: u64,
    pub downlink_speed: u64,
    pub form: PacketForm,
}

const NW_ERROR: usize = 0;

const PACKET_SERVICE_STATE: usize = 4;

const DATA_CLASS: usize = 8;

const UPLINK_SPEED: usize = 12;

const DOWNLINK_SPEED: usize = 20;

const FREQUENCY_RANGE: usize = 28;

const LENGTH_V1: usize = 28;

const LENGTH_V2: usize = 32;

// States and classes stay numbers: a record may hold any, which the rules judge (`verdict_of`).
const ATTACHED: u32 = 2;

const LAST_STATE: u32 = 4;

const LAST_FREQUENCY_RANGE: u32 = 3;

const CLASS_HSPA: u32 = 0x18;

const CLASS_5G_NSA: u32 = 0x40;

const CLASS_5G_SA: u32 = 0x80;

// The length is judged first, so that the reads after it need no test of their own.
#[tactic(auto, unfolding(crate::specs::PacketService::read_of, protocol::specs::Verdict::first_of))]
pub fn read(version: Version, payload: &[u8]) -> Result<PacketService, Refusal>
    ensures { result ≡ read_of version payload.now }
{
    judge_length(version, payload.len())?;
    let info = record_at(version, payload);
    judge(info)?;
    Ok(info)
}

// Writes the record at its form's version.
pub fn write(info: PacketService, out: &mut [u8]) -> Written
    ensures value { result ≡ (write_of info out.old).answer }
    ensures out_after { out.new ≡ (write_of info out.old).output }
{
    match version_of(info) {
        Version::V1 => write_in(info, LENGTH_V1, out),
        Version::V2 => write_in(info, LENGTH_V2, out),
    }
}

// Writes n bytes, the length of the record's form: where it is a constant, no store is tested.
#[tactic(auto, using(crate::proofs::Laws::stored, crate::proofs::Laws::length_bytes), unfolding(crate::specs::PacketService::write_of, protocol::specs::Verdict::writing, protocol::specs::Verdict::with_room, protocol::specs::Verdict::given, protocol::specs::Verdict::first_of, protocol::specs::Verdict::fault_if))]
fn write_in(info: PacketService, n: usize, out: &mut [u8]) -> Written
    requires { n ≡ length_of (version_of info) }
    ensures value { result ≡ (write_of info out.old).answer }
    ensures out_after { out.new ≡ (write_of info out.old).output }
{
    judge(info)?;
    refuse_if(out.len() < n, Reason::OutputTooSmall, n)?;
    put(info, &mut out[..n]);
    Ok(n)
}

pub fn version_of(info: PacketService) -> Version
    ensures { result ≡ version_of info }
{
    match info.form {
        PacketForm::V1 { .. } => Version::V1,
        PacketForm::V2 { .. } => Version::V2,
    }
}

fn judge_length(version: Version, n: usize) -> Verdict
    ensures { result ≡ exact_length (length_of version) n }
{
    match version {
        Version::V1 => judge_exact_length(LENGTH_V1, n),
        Version::V2 => judge_exact_length(LENGTH_V2, n),
    }
}

#[tactic(auto, unfolding(crate::specs::PacketService::record_at))]
fn record_at(version: Version, s: &[u8]) -> PacketService
    ensures { result ≡ record_at version s.now }
{
    PacketService {
        nw_error: u32_at(s, NW_ERROR),
        packet_service_state: u32_at(s, PACKET_SERVICE_STATE),
        uplink_speed: u64_at(s, UPLINK_SPEED),
        downlink_speed: u64_at(s, DOWNLINK_SPEED),
        form: form_at(version, s),
    }
}

fn form_at(version: Version, s: &[u8]) -> PacketForm
    ensures { result ≡ form_at version s.now }
{
    match version {
        Version::V1 => PacketForm::V1 {
            highest_available_data_class: u32_at(s, DATA_CLASS),
        },
        Version::V2 => PacketForm::V2 {
            current_data_class: u32_at(s, DATA_CLASS),
            frequency_range: u32_at(s, FREQUENCY_RANGE),
        },
    }
}

// The rules on fields, the same for the reader and the writer.
#[tactic(auto, using(protocol::proofs::Verdicts::fault_stays), unfolding(crate::specs::PacketService::verdict_of, crate::specs::PacketService::rules, crate::specs::PacketService::form_rules, protocol::specs::Verdict::judge_from, protocol::specs::Verdict::first_of, protocol::specs::Verdict::fault_if))]
fn judge(info: PacketService) -> Verdict
    ensures { result ≡ verdict_of info }
{
    let state = info.packet_service_state;
    refuse_if(
        LAST_STATE < state,
        Reason::OutsideTable,
        PACKET_SERVICE_STATE,
    )?;
    match info.form {
        PacketForm::V1 {
            highest_available_data_class,
        } => refuse_if(
            !is_packet_class(Version::V1, highest_available_data_class),
            Reason::OutsideTable,
            DATA_CLASS,
        ),
        PacketForm::V2 {
            current_data_class,
            frequency_range,
        } => judge_later(state, current_data_class, frequency_range),
    }
}

// The rules that follow the state's at 2.00.
#[tactic(auto, unfolding(crate::specs::PacketService::later_rules, protocol::specs::Verdict::judge_from, protocol::specs::Verdict::first_of, protocol::specs::Verdict::fault_if))]
fn judge_later(state: u32, class: u32, range: u32) -> Verdict
    ensures { result ≡ judge (later_rules state class range) }
{
    refuse_if(
        !is_packet_class(Version::V2, class),
        Reason::OutsideTable,
        DATA_CLASS,
    )?;
    refuse_if(
        LAST_FREQUENCY_RANGE < range,
        Reason::OutsideTable,
        FREQUENCY_RANGE,
    )?;
    refuse_if(
        is_unattached(state, class),
        Reason::Contradiction,
        DATA_CLASS,
    )?;
    refuse_if(
        is_stray_range(class, range),
        Reason::Contradiction,
        FREQUENCY_RANGE,
    )
}

// Whether the class is none, one, or the pair that stands for HSPA.
#[tactic(auto, unfolding(protocol::specs::DataClass::sum_of_bits))]
fn is_packet_class(version: Version, class: u32) -> bool
    ensures { result ≡ packet_class version class }
{
    is_one_class_or_none(version, class) || class == CLASS_HSPA
}

// Whether there is a class without an attached state.
fn is_unattached(state: u32, class: u32) -> bool
    ensures { result ≡ unattached state class }
{
    class != 0 && state != ATTACHED
}

// Whether there is a frequency range without a class of 5G.
fn is_stray_range(class: u32, range: u32) -> bool
    ensures { result ≡ stray_range class range }
{
    range != 0 && class != CLASS_5G_NSA && class != CLASS_5G_SA
}

#[tactic(auto, using(wire::proofs::Laws::sets_append), unfolding(crate::specs::PacketService::bytes_of, crate::specs::PacketService::shared_bytes))]
fn put(info: PacketService, out: &mut [u8])
    ensures { out.new ≡ sets out.old 0 (bytes_of info) }
{
    match info.form {
        PacketForm::V1 {
            highest_available_data_class,
        } => {
            put_shared(info, highest_available_data_class, out);
        }
        PacketForm::V2 {
            current_data_class,
            frequency_range,
        } => {
            put_shared(info, current_data_class, out);
            put_u32(out, FREQUENCY_RANGE, frequency_range);
        }
    }
}

// The bytes that both forms have.
#[tactic(auto, unfolding(crate::specs::PacketService::shared_bytes))]
fn put_shared(info: PacketService, class: u32, out: &mut [u8])
    ensures { out.new ≡ sets out.old 0 (shared_bytes info class) }
{
    put_u32(out, NW_ERROR, info.nw_error);
    put_u32(out, PACKET_SERVICE_STATE, info.packet_service_state);
    put_u32(out, DATA_CLASS, class);
    put_u64(out, UPLINK_SPEED, info.uplink_speed);
    put_u64(out, DOWNLINK_SPEED, info.downlink_speed);
}
