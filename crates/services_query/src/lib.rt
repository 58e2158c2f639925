// Questions to a DEVICE_SERVICES payload: an element by its number or its service, and whether a
// CID is listed. The whole list is judged before anything of it is shown.
#![tactic(auto)]

pub mod all;

ghost use Rattle.std.specs.Prelude.{◌≡◌, ◌+◌, ◌*◌, ◌<◌, ◌^◌, length};
ghost use Rattle.folds.specs.Folds.{any_of, first_index};
ghost use Rattle.services_query.specs.ServicesQuery.{words_at, is_of, is_cid, has_cid, holds, element_shown, chosen_shown, element_with, element_of, cids_with, cids_of, listed_with, listed_of};

use device_services::{
    DeviceService, ELEMENT_FIXED_PART, judge_list, judge_list_with, judged_cid, judged_cid_count,
    judged_count, judged_element, judged_offset,
};
use pairs::ZeroSize;
use protocol::service::ServiceId;
use protocol::{Reason, Refusal, refuse_if};
use wire::u32_at;

// The element with a number, from 0.
pub fn element(
    payload: &[u8],
    number: u32,
    cids: &mut [u32],
) -> Result<Option<DeviceService>, Refusal>
    ensures value { result ≡ (element_of payload.now number cids.old).answer }
    ensures cids_after { cids.new ≡ (element_of payload.now number cids.old).output }
{
    element_with(ZeroSize::Absent, payload, number, cids)
}

// `.._with`: by the caller's choice.
#[tactic(auto, unfolding(crate::specs::ServicesQuery::element_with))]
pub fn element_with(
    zero_size: ZeroSize,
    payload: &[u8],
    number: u32,
    cids: &mut [u32],
) -> Result<Option<DeviceService>, Refusal>
    ensures value { result ≡ (element_with zero_size payload.now number cids.old).answer }
    ensures cids_after { cids.new ≡ (element_with zero_size payload.now number cids.old).output }
{
    judge_list_with(zero_size, payload)?;
    show_chosen(payload, number, cids)
}

// The first element of a service.
pub fn cids_of(
    payload: &[u8],
    service: ServiceId,
    cids: &mut [u32],
) -> Result<Option<DeviceService>, Refusal>
    ensures value { result ≡ (cids_of payload.now service cids.old).answer }
    ensures cids_after { cids.new ≡ (cids_of payload.now service cids.old).output }
{
    cids_of_with(ZeroSize::Absent, payload, service, cids)
}

#[tactic(auto, unfolding(crate::specs::ServicesQuery::cids_with))]
pub fn cids_of_with(
    zero_size: ZeroSize,
    payload: &[u8],
    service: ServiceId,
    cids: &mut [u32],
) -> Result<Option<DeviceService>, Refusal>
    ensures value { result ≡ (cids_with zero_size payload.now service cids.old).answer }
    ensures cids_after { cids.new ≡ (cids_with zero_size payload.now service cids.old).output }
{
    judge_list_with(zero_size, payload)?;
    let number = index_of(payload, service, judged_count(payload));
    show_chosen(payload, number, cids)
}

// Whether any element is of the service and holds the CID.
pub fn is_listed(payload: &[u8], service: ServiceId, cid: u32) -> Result<bool, Refusal>
    ensures { result ≡ listed_of payload.now service cid }
{
    is_listed_with(ZeroSize::Absent, payload, service, cid)
}

#[tactic(auto, unfolding(crate::specs::ServicesQuery::listed_with))]
pub fn is_listed_with(
    zero_size: ZeroSize,
    payload: &[u8],
    service: ServiceId,
    cid: u32,
) -> Result<bool, Refusal>
    ensures { result ≡ listed_with zero_size payload.now service cid }
{
    judge_list_with(zero_size, payload)?;
    Ok(is_any_holding(payload, service, cid, judged_count(payload)))
}

#[tactic(auto, unfolding(crate::specs::ServicesQuery::chosen_shown))]
#[inline(always)]
fn show_chosen(
    payload: &[u8],
    number: u32,
    cids: &mut [u32],
) -> Result<Option<DeviceService>, Refusal>
    ensures value { result ≡ (chosen_shown payload.now number cids.old).answer }
    ensures cids_after { cids.new ≡ (chosen_shown payload.now number cids.old).output }
{
    if number < judged_count(payload) {
        return show_element(payload, number, cids);
    }
    Ok(None)
}

#[tactic(auto, using(crate::proofs::OnePass::cids_over), unfolding(crate::specs::ServicesQuery::element_shown, protocol::specs::Verdict::fault_if))]
#[inline(always)]
fn show_element(
    payload: &[u8],
    number: u32,
    cids: &mut [u32],
) -> Result<Option<DeviceService>, Refusal>
    ensures value { result ≡ (element_shown payload.now number cids.old).answer }
    ensures cids_after { cids.new ≡ (element_shown payload.now number cids.old).output }
{
    let offset = judged_offset(payload, number);
    let count = judged_cid_count(payload, offset) as usize;
    refuse_if(cids.len() < count, Reason::OutputTooSmall, 4 * count)?;
    let first = offset as usize + ELEMENT_FIXED_PART as usize;
    copy_words(payload, first, &mut cids[..count]);
    Ok(Some(judged_element(payload, offset)))
}

// The numbers that stand one behind another from `from` on, as many as the list takes.
#[tactic(auto, using(crate::proofs::OnePass::words_none, crate::proofs::OnePass::words_next, wire::proofs::Laws::sets_all, crate::proofs::OnePass::length_words))]
fn copy_words(payload: &[u8], from: usize, list: &mut [u32])
    requires { from + 4 * length list.old < 2 ^ 64 }
    ensures { list.new ≡ words_at payload.now from (length list.old) }
{
    for (i, word) in list.iter_mut().enumerate() {
        *word = u32_at(payload, from + 4 * i);
    }
}

// The number of the first element of a service, or the count where there is none.
#[tactic(auto, using(folds::proofs::Laws::none_next, folds::proofs::Laws::index_at, folds::proofs::Laws::index_none), unfolding(folds::specs::Folds::any_of))]
fn index_of(payload: &[u8], service: ServiceId, count: u32) -> u32
    ensures { result ≡ first_index (is_of payload.now service) count }
{
    for i in 0..count {
        if is_of(payload, service, i) {
            return i;
        }
    }
    count
}

// Whether an element is of a service. The id is compared where it stands: most differ in its first word.
// Inlined, since it is asked of each element.
#[tactic(auto, unfolding(crate::specs::ServicesQuery::is_of, device_services::specs::DeviceServices::element_at, protocol::specs::Service::id_at, protocol::specs::Service::same_id))]
#[inline(always)]
pub fn is_of(payload: &[u8], service: ServiceId, number: u32) -> bool
    ensures { result ≡ is_of payload.now service number }
{
    let at = judged_offset(payload, number) as usize;
    u32_at(payload, at) == service.word0
        && u32_at(payload, at + 4) == service.word1
        && u32_at(payload, at + 8) == service.word2
        && u32_at(payload, at + 12) == service.word3
}

// Whether any element is of the service and holds the CID.
#[tactic(auto, using(folds::proofs::Laws::none_next), unfolding(folds::specs::Folds::any_of, crate::specs::ServicesQuery::holds))]
fn is_any_holding(payload: &[u8], service: ServiceId, cid: u32, count: u32) -> bool
    ensures { result ≡ any_of (holds payload.now service cid) count }
{
    for i in 0..count {
        if is_of(payload, service, i) && is_held(payload, judged_offset(payload, i), cid) {
            return true;
        }
    }
    false
}

// Whether the element that starts at an offset has a CID.
#[tactic(auto, using(folds::proofs::Laws::none_next), unfolding(folds::specs::Folds::any_of, crate::specs::ServicesQuery::has_cid))]
fn is_held(payload: &[u8], offset: u32, cid: u32) -> bool
    ensures { result ≡ has_cid payload.now offset cid }
{
    for k in 0..judged_cid_count(payload, offset) {
        if judged_cid(payload, offset, k) == cid {
            return true;
        }
    }
    false
}
