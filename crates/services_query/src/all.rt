// All elements of a DEVICE_SERVICES payload in one pass: what costs one judgement.
ghost use Rattle.std.specs.Prelude.{◌≡◌, ◌*◌, ◌≤◌, length};
ghost use Rattle.std.proofs.lemmas.List.Edits.{sets};
ghost use Rattle.folds.specs.Folds.{sum_of};
ghost use Rattle.device_services.specs.DeviceServices.{count_of};
ghost use Rattle.services_query.specs.ServicesQuery.{cids_of_element, all_fields, all_cids, all_shown, all_with, all_of};

use crate::copy_words;
use device_services::{
    ELEMENT_FIXED_PART, FIELD_WORDS, judge_list_with, judged_cid_count, judged_count, judged_offset,
};
use pairs::ZeroSize;
use protocol::{Reason, Refusal, refuse_if};

// How many elements and CIDs stand at the fronts of the caller's lists.
#[derive(Clone, Copy)]
pub struct AllListed {
    pub elements: u32,
    pub cids: usize,
}

// Each element as seven numbers: the four of its id, its two numbers and its count of CIDs; and all
// CIDs, element by element.
pub fn all_elements(
    payload: &[u8],
    fields: &mut [u32],
    cids: &mut [u32],
) -> Result<AllListed, Refusal>
    ensures value { result ≡ (all_of payload.now fields.old cids.old).answer }
    ensures fields_after { fields.new ≡ (all_of payload.now fields.old cids.old).fields }
    ensures cids_after { cids.new ≡ (all_of payload.now fields.old cids.old).cids }
{
    all_elements_with(ZeroSize::Absent, payload, fields, cids)
}

// By the caller's choice.
#[tactic(auto, using(crate::proofs::OnePass::few_listed), unfolding(crate::specs::ServicesQuery::all_with))]
pub fn all_elements_with(
    zero_size: ZeroSize,
    payload: &[u8],
    fields: &mut [u32],
    cids: &mut [u32],
) -> Result<AllListed, Refusal>
    ensures value { result ≡ (all_with zero_size payload.now fields.old cids.old).answer }
    ensures fields_after { fields.new ≡ (all_with zero_size payload.now fields.old cids.old).fields }
    ensures cids_after { cids.new ≡ (all_with zero_size payload.now fields.old cids.old).cids }
{
    judge_list_with(zero_size, payload)?;
    show_all(payload, fields, cids)
}

// The room of both lists is judged, that of the elements first.
#[tactic(auto, using(crate::proofs::OnePass::length_fields, crate::proofs::OnePass::length_cids, wire::proofs::Laws::sets_over), unfolding(crate::specs::ServicesQuery::all_shown, protocol::specs::Verdict::fault_if))]
fn show_all(payload: &[u8], fields: &mut [u32], cids: &mut [u32]) -> Result<AllListed, Refusal>
    requires { count_of payload.now ≤ 32 }
    ensures value { result ≡ (all_shown payload.now fields.old cids.old).answer }
    ensures fields_after { fields.new ≡ (all_shown payload.now fields.old cids.old).fields }
    ensures cids_after { cids.new ≡ (all_shown payload.now fields.old cids.old).cids }
{
    let count = judged_count(payload);
    let n = count as usize;
    let words = FIELD_WORDS * n;
    let total = total_cids(payload, count);
    refuse_if(
        fields.len() < words,
        Reason::OutputTooSmall,
        ELEMENT_FIXED_PART as usize * n,
    )?;
    refuse_if(cids.len() < total, Reason::OutputTooSmall, 4 * total)?;
    copy_fields(payload, count, fields);
    copy_all_cids(payload, count, cids);
    Ok(AllListed {
        elements: count,
        cids: total,
    })
}

// The CIDs of the first `count` elements.
#[tactic(auto, using(folds::proofs::Laws::sum_next), unfolding(folds::specs::Folds::sum_of))]
fn total_cids(payload: &[u8], count: u32) -> usize
    requires { count ≤ 32 }
    ensures value { result ≡ sum_of (cids_of_element payload.now) count }
    ensures small { result ≤ 137438953440 }
{
    let mut total: usize = 0;
    for i in 0..count {
        total += judged_cid_count(payload, judged_offset(payload, i)) as usize;
    }
    total
}

#[tactic(auto, using(crate::proofs::OnePass::fields_none))]
fn copy_fields(payload: &[u8], count: u32, fields: &mut [u32])
    requires { 7 * count ≤ length fields.old }
    ensures { fields.new ≡ sets fields.old 0 (all_fields payload.now count) }
{
    for i in 0..count {
        let first = FIELD_WORDS * i as usize;
        let offset = judged_offset(payload, i) as usize;
        copy_words(payload, offset, &mut fields[first..first + FIELD_WORDS]);
    }
}

#[tactic(auto, using(crate::proofs::OnePass::cids_none, crate::proofs::OnePass::total_none))]
fn copy_all_cids(payload: &[u8], count: u32, cids: &mut [u32])
    requires { sum_of (cids_of_element payload.now) count ≤ length cids.old }
    ensures { cids.new ≡ sets cids.old 0 (all_cids payload.now count) }
{
    let mut at: usize = 0;
    for i in 0..count {
        let offset = judged_offset(payload, i);
        let next = at + judged_cid_count(payload, offset) as usize;
        let first = offset as usize + ELEMENT_FIXED_PART as usize;
        copy_words(payload, first, &mut cids[at..next]);
        at = next;
    }
}
