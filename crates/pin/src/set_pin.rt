// The SET_PIN payload: its record, and its reader and writer. Texts are shown as ranges of the
// payload; what stands in one is not judged.
ghost use Rattle.std.specs.Prelude.{◌≡◌, ◌≤◌, length};
ghost use Rattle.std.proofs.lemmas.List.Edits.{sets};
ghost use Rattle.protocol.specs.Verdict.{judge};
ghost use Rattle.texts.specs.Texts.{laid, ranges_bytes, texts_bytes};
ghost use Rattle.pin.specs.SetPin.{fixed_part, record_at, texts_at, number_rules, read_with, read_of, two, written_verdict, front_bytes, fixed_bytes, write_of};

use crate::pin_info::LAST_TYPE;
use pairs::{Range, ZeroSize};
use protocol::{Reason, Refusal, Verdict, Written, judge_open_length, refuse_if};
use texts::{judge_sizes, judge_texts, judged_text, put_pair, put_text, start_of};
use wire::{put_u32, u32_at};

// Type and operation as numbers, as they stand in the payload: C interface. Reader and writer judge
// them.
#[repr(C)]
#[derive(Clone, Copy)]
pub struct SetPin {
    pub pin_type: u32,
    pub pin_operation: u32,
}

#[repr(C)]
#[derive(Clone, Copy)]
pub struct SetPinTexts {
    pub pin: Range,
    pub new_pin: Range,
}

pub const ENTER: u32 = 0;

// The most bytes of a text.
pub const MOST_TEXT: usize = 32;

const LAST_OPERATION: u32 = 3;

const PIN_TYPE: usize = 0;

const PIN_OPERATION: usize = 4;

const PIN: usize = 8;

const NEW_PIN: usize = 16;

const FIXED_PART: u16 = 24;

// The place and the limit of each text.
const TEXTS: [[u32; 2]; 2] = [
    [PIN as u32, MOST_TEXT as u32],
    [NEW_PIN as u32, MOST_TEXT as u32],
];

// By default.
pub fn read(payload: &[u8]) -> Result<(SetPin, SetPinTexts), Refusal>
    ensures { result ≡ read_of payload.now }
{
    read_with(ZeroSize::Absent, payload)
}

// By the caller's choice. The length is judged first, so that the reads after it need no test of
// their own.
#[tactic(auto, unfolding(crate::specs::SetPin::read_with, crate::specs::SetPin::verdict_with, crate::specs::SetPin::texts_verdict, crate::specs::SetPin::pairs_at, protocol::specs::Verdict::first_of))]
pub fn read_with(zero_size: ZeroSize, payload: &[u8]) -> Result<(SetPin, SetPinTexts), Refusal>
    ensures { result ≡ read_with zero_size payload.now }
{
    judge_open_length(FIXED_PART as usize, payload.len())?;
    let info = record_at(payload);
    judge_numbers(info)?;
    judge_texts(zero_size, payload, FIXED_PART, &TEXTS)?;
    Ok((info, texts_at(payload)))
}

#[tactic(auto, unfolding(crate::specs::SetPin::record_at))]
fn record_at(s: &[u8]) -> SetPin
    ensures { result ≡ record_at s.now }
{
    SetPin {
        pin_type: u32_at(s, PIN_TYPE),
        pin_operation: u32_at(s, PIN_OPERATION),
    }
}

#[tactic(auto, unfolding(crate::specs::SetPin::texts_at, crate::specs::SetPin::pairs_at))]
fn texts_at(s: &[u8]) -> SetPinTexts
    ensures { result ≡ texts_at s.now }
{
    SetPinTexts {
        pin: judged_text(s, &TEXTS, 0),
        new_pin: judged_text(s, &TEXTS, 1),
    }
}

// The numbers, the same for the reader and the writer.
#[tactic(auto, unfolding(crate::specs::SetPin::number_rules, protocol::specs::Verdict::judge_from, protocol::specs::Verdict::first_of, protocol::specs::Verdict::fault_if))]
fn judge_numbers(info: SetPin) -> Verdict
    ensures { result ≡ judge (number_rules info) }
{
    refuse_if(LAST_TYPE < info.pin_type, Reason::OutsideTable, PIN_TYPE)?;
    refuse_if(
        LAST_OPERATION < info.pin_operation,
        Reason::OutsideTable,
        PIN_OPERATION,
    )
}

// What is to be written is judged, then the room.
#[tactic(auto, using(crate::proofs::SetPinParts::length_bytes, crate::proofs::SetPinParts::small, crate::proofs::SetPinParts::stored), unfolding(crate::specs::SetPin::write_of, protocol::specs::Verdict::writing, protocol::specs::Verdict::given, protocol::specs::Verdict::with_room, protocol::specs::Verdict::first_of, protocol::specs::Verdict::fault_if))]
pub fn write(info: SetPin, pin: &[u8], new_pin: &[u8], out: &mut [u8]) -> Written
    ensures value { result ≡ (write_of info pin.now new_pin.now out.old).answer }
    ensures out_after { out.new ≡ (write_of info pin.now new_pin.now out.old).output }
{
    judge_written(info, pin.len(), new_pin.len())?;
    let first = pin.len() as u16;
    let second = new_pin.len() as u16;
    let n = start_of(FIXED_PART, &[first, second], 2) as usize;
    refuse_if(out.len() < n, Reason::OutputTooSmall, n)?;
    put_fixed(info, first, second, out);
    put_texts(pin, new_pin, out);
    Ok(n)
}

// The writer's rules, by the sizes of the texts.
#[tactic(auto, unfolding(crate::specs::SetPin::written_verdict, crate::specs::SetPin::size_rules, protocol::specs::Verdict::first_of))]
fn judge_written(info: SetPin, pin: usize, new_pin: usize) -> Verdict
    ensures { result ≡ written_verdict info pin new_pin }
{
    judge_numbers(info)?;
    judge_sizes(&TEXTS, &[pin, new_pin])
}

// The texts straight after the fixed part, where they are of sizes that fit.
fn put_texts(pin: &[u8], new_pin: &[u8], out: &mut [u8])
    requires { (length pin.now ≤ 32) × (length new_pin.now ≤ 32) }
    ensures { out.new ≡ sets out.old 24 (texts_bytes (two pin.now new_pin.now)) }
{
    let sizes = [pin.len() as u16, new_pin.len() as u16];
    put_text(out, FIXED_PART, &sizes, 0, pin);
    put_text(out, FIXED_PART, &sizes, 1, new_pin);
}

// The fixed part, for texts of these sizes.
#[tactic(auto, using(wire::proofs::Laws::sets_then), unfolding(crate::specs::SetPin::fixed_bytes, crate::specs::SetPin::front_bytes, pairs::specs::Pair::range_bytes))]
fn put_fixed(info: SetPin, pin: u16, new_pin: u16, out: &mut [u8])
    ensures { out.new ≡ sets out.old 0 (fixed_bytes info (laid fixed_part (two pin new_pin))) }
{
    put_numbers(info, out);
    put_pairs(pin, new_pin, out);
}

#[tactic(auto, unfolding(crate::specs::SetPin::front_bytes))]
fn put_numbers(info: SetPin, out: &mut [u8])
    ensures { out.new ≡ sets out.old 0 (front_bytes info) }
{
    put_u32(out, PIN_TYPE, info.pin_type);
    put_u32(out, PIN_OPERATION, info.pin_operation);
}

#[tactic(auto, unfolding(pairs::specs::Pair::range_bytes))]
fn put_pairs(pin: u16, new_pin: u16, out: &mut [u8])
    ensures { out.new ≡ sets out.old 8 (ranges_bytes (laid fixed_part (two pin new_pin))) }
{
    let sizes = [pin, new_pin];
    put_pair(out, PIN, FIXED_PART, &sizes, 0);
    put_pair(out, NEW_PIN, FIXED_PART, &sizes, 1);
}
