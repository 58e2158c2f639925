// The DEVICE_SERVICES payload: its reader, the judge of one element, and an element's fields.
// Questions to the list and the writer stand in crates of their own.
#![tactic(auto)]

ghost use Rattle.std.specs.Prelude.{◌≡◌, ◌≤◌, min, length};
ghost use Rattle.device_services.specs.DeviceServices.{count_of, head_at, pair_place, offset_of, cid_count_at, element_at, cid_at, length_verdict, part_verdict, element_judged_with, element_judged, verdict_with, verdict_of, read_with, read_of};

use lists::{ListForm, judge_lists};
use pairs::ZeroSize;
use protocol::service::{ServiceId, id_at};
use protocol::{Reason, Refusal, Verdict, judge_open_length, refuse_if};
use wire::u32_at;

// What stands before the pairs.
#[repr(C)]
#[derive(Clone, Copy)]
pub struct DeviceServices {
    pub device_services_count: u32,
    pub max_dss_sessions: u32,
}

// What an element has besides its CIDs.
#[repr(C)]
#[derive(Clone, Copy)]
pub struct DeviceService {
    pub device_service_id: ServiceId,
    pub dss_payload: u32,
    pub max_dss_instances: u32,
    pub cid_count: u32,
}

// The most elements of a list, and the most CIDs of an element.
pub const MOST_SERVICES: u32 = 32;

pub const MOST_CIDS: u32 = 128;

// The size of an element without CIDs, and of one with the most.
pub const ELEMENT_FIXED_PART: u32 = 28;

pub const ELEMENT_LIMIT: u32 = 540;

// An element without CIDs as 32-bit numbers: the four of its id, its two numbers and its count of CIDs.
pub const FIELD_WORDS: usize = 7;

// The fixed part of a list without elements; the pairs follow it.
const PAIRS: u32 = 8;

const PAIR_SIZE: u32 = 8;

// Places in the payload.
pub const DEVICE_SERVICES_COUNT: usize = 0;

pub const MAX_DSS_SESSIONS: usize = 4;

// Places in an element; its CIDs follow its fixed part.
pub const DSS_PAYLOAD: usize = 16;

pub const MAX_DSS_INSTANCES: usize = 20;

pub const CID_COUNT: usize = 24;

// An element as the list behind its pair.
const ELEMENT: ListForm = ListForm {
    limit: ELEMENT_LIMIT,
    least: ELEMENT_FIXED_PART,
    count_place: CID_COUNT as u32,
    fewest: 0,
    most: MOST_CIDS,
    each: 4,
    optional: false,
};

pub fn read(payload: &[u8]) -> Result<DeviceServices, Refusal>
    ensures { result ≡ read_of payload.now }
{
    read_with(ZeroSize::Absent, payload)
}

// `.._with`: by the caller's choice.
#[tactic(auto, unfolding(crate::specs::DeviceServices::read_with))]
pub fn read_with(zero_size: ZeroSize, payload: &[u8]) -> Result<DeviceServices, Refusal>
    ensures { result ≡ read_with zero_size payload.now }
{
    judge_list_with(zero_size, payload)?;
    Ok(head_at(payload))
}

// The verdict on the whole payload.
pub fn judge_list(payload: &[u8]) -> Verdict
    ensures { result ≡ verdict_of payload.now }
{
    judge_list_with(ZeroSize::Absent, payload)
}

#[tactic(auto, using(crate::proofs::Laws::whole_part))]
pub fn judge_list_with(zero_size: ZeroSize, payload: &[u8]) -> Verdict
    ensures { result ≡ verdict_with zero_size payload.now }
{
    judge_part(zero_size, payload, 0, MOST_SERVICES)
}

// The length and the count, then of the list's elements those with the numbers from `first` to below
// `end`, each with its pair, up to the first fault, whatever the others are.
#[tactic(auto, using(crate::proofs::Laws::few), unfolding(protocol::specs::Verdict::first_of, crate::specs::DeviceServices::element_verdict, crate::specs::DeviceServices::content_rules))]
pub fn judge_part(zero_size: ZeroSize, payload: &[u8], first: u32, end: u32) -> Verdict
    ensures { result ≡ part_verdict zero_size payload.now first end }
{
    judge_length(payload)?;
    let count = judged_count(payload);
    let fixed = pair_place(count) as u32;
    judge_lists(
        zero_size,
        payload,
        fixed,
        PAIRS,
        first,
        end.min(count),
        ELEMENT,
    )
}

// The verdict on the payload's length and count, before any pair.
#[tactic(auto, unfolding(crate::specs::DeviceServices::length_verdict, protocol::specs::Verdict::judge_from, protocol::specs::Verdict::first_of, protocol::specs::Verdict::fault_if))]
pub fn judge_length(payload: &[u8]) -> Verdict
    ensures { result ≡ length_verdict (length payload.now) (count_of payload.now) }
{
    let n = payload.len();
    let count = judged_count(payload);
    refuse_if(n < PAIRS as usize, Reason::TooShort, n)?;
    refuse_if(
        MOST_SERVICES < count,
        Reason::WrongCount,
        DEVICE_SERVICES_COUNT,
    )?;
    judge_open_length(pair_place(count), n)
}

// The length and the count, then one pair and its element, whatever the others are.
pub fn judge_element(payload: &[u8], number: u32) -> Result<bool, Refusal>
    ensures { result ≡ element_judged payload.now number }
{
    judge_element_with(ZeroSize::Absent, payload, number)
}

#[tactic(auto, using(crate::proofs::Laws::few), unfolding(crate::specs::DeviceServices::element_judged_with, crate::specs::DeviceServices::element_verdict, crate::specs::DeviceServices::content_rules))]
pub fn judge_element_with(zero_size: ZeroSize, payload: &[u8], number: u32) -> Result<bool, Refusal>
    ensures { result ≡ element_judged_with zero_size payload.now number }
{
    judge_length(payload)?;
    let count = judged_count(payload);
    if count <= number {
        return Ok(false);
    }
    let fixed = pair_place(count) as u32;
    let place = pair_place(number) as u32;
    lists::judge_list(zero_size, payload, fixed, place, ELEMENT)?;
    Ok(true)
}

// `judged_..`: what a list shows that was judged before. Nothing is judged here.
pub fn judged_count(payload: &[u8]) -> u32
    ensures { result ≡ count_of payload.now }
{
    u32_at(payload, DEVICE_SERVICES_COUNT)
}

// The count, but no more than a list can have: for a list that is not judged yet.
pub fn bounded_count(payload: &[u8]) -> u32
    ensures { result ≡ min (count_of payload.now) 32 }
{
    judged_count(payload).min(MOST_SERVICES)
}

// Where an element of the list starts.
pub fn judged_offset(payload: &[u8], number: u32) -> u32
    ensures { result ≡ offset_of payload.now number }
{
    u32_at(payload, pair_place(number))
}

// The fields of the element that starts at an offset. Inlined, and the id made of its words, so that an
// answer around it need not go through memory.
#[tactic(auto, unfolding(crate::specs::DeviceServices::element_at))]
#[inline(always)]
pub fn judged_element(payload: &[u8], offset: u32) -> DeviceService
    ensures { result ≡ element_at payload.now offset }
{
    let at = offset as usize;
    let ServiceId {
        word0,
        word1,
        word2,
        word3,
    } = id_at(payload, at);
    DeviceService {
        device_service_id: ServiceId {
            word0,
            word1,
            word2,
            word3,
        },
        dss_payload: u32_at(payload, at + DSS_PAYLOAD),
        max_dss_instances: u32_at(payload, at + MAX_DSS_INSTANCES),
        cid_count: judged_cid_count(payload, offset),
    }
}

pub fn judged_cid_count(payload: &[u8], offset: u32) -> u32
    ensures { result ≡ cid_count_at payload.now offset }
{
    u32_at(payload, offset as usize + CID_COUNT)
}

// A CID of the element that starts at an offset, by its number.
pub fn judged_cid(payload: &[u8], offset: u32, number: u32) -> u32
    ensures { result ≡ cid_at payload.now offset number }
{
    let first = offset as usize + ELEMENT_FIXED_PART as usize;
    u32_at(payload, first + 4 * number as usize)
}

// Where the pair of an element stands.
pub fn pair_place(number: u32) -> usize
    ensures { result ≡ pair_place number }
{
    PAIRS as usize + PAIR_SIZE as usize * number as usize
}

// What stands before the pairs.
#[tactic(auto, unfolding(crate::specs::DeviceServices::head_at))]
fn head_at(payload: &[u8]) -> DeviceServices
    ensures { result ≡ head_at payload.now }
{
    DeviceServices {
        device_services_count: u32_at(payload, DEVICE_SERVICES_COUNT),
        max_dss_sessions: u32_at(payload, MAX_DSS_SESSIONS),
    }
}
