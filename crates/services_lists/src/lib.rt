// The DEVICE_SERVICES payload written over the caller's lists, in the form in which
// `services_query::all` gives them. The record of `services_writer` is not needed.
#![tactic(auto)]

ghost use Rattle.std.specs.Prelude.{◌≡◌, not, ◌+◌, ◌*◌, ◌/◌, ◌%◌, ◌≤◌, ◌<◌, ltb, eqb, length};
ghost use Rattle.std.proofs.lemmas.List.Edits.{sets};
ghost use Rattle.folds.specs.Folds.{first_fault, joined};
ghost use Rattle.protocol.specs.Refusal.{wrong_count};
ghost use Rattle.protocol.specs.Verdict.{first_of, fault_if};
ghost use Rattle.device_services.specs.DeviceServices.{fixed_part};
ghost use Rattle.services_writer.specs.ServicesWriter.{length_of, size_verdict, pair_bytes, piece};
ghost use Rattle.services_lists.specs.ServicesLists.{count_of, cids_counted, cids_before, record_of, bare_of, totalled, rest_verdict, lists_verdict, write_all_of};
ghost use Rattle.protocol.specs.Verdict.{no_fault};

use device_services::{
    DEVICE_SERVICES_COUNT, ELEMENT_FIXED_PART, ELEMENT_LIMIT, FIELD_WORDS, MAX_DSS_SESSIONS,
    MOST_SERVICES, pair_place,
};
use pairs::{Range, put_range};
use protocol::{MOST_INFORMATION, Reason, Refusal, Verdict, Written, refuse_if};
use services_writer::put_words;
use wire::put_u32;

// The numbers of all elements, at most.
const MOST_FIELDS: usize = FIELD_WORDS * MOST_SERVICES as usize;

// The count of CIDs among an element's numbers.
const COUNT_WORD: usize = 6;

// The numbers of the elements besides their CIDs, and how many elements they are.
#[derive(Clone, Copy)]
struct Elements<'a> {
    fields: &'a [u32],
    count: u32,
    ghost counted: { count ≡ count_of fields.now },
    ghost few: { count ≤ 32 },
}

// Each element as seven numbers; all CIDs, element by element.
#[tactic(auto, using(crate::proofs::Laws::verdict_same), unfolding(crate::specs::ServicesLists::write_all_of, protocol::specs::Verdict::writing, protocol::specs::Verdict::with_room, protocol::specs::Verdict::given, protocol::specs::Verdict::first_of))]
pub fn write_all(max_dss_sessions: u32, fields: &[u32], cids: &[u32], out: &mut [u8]) -> Written
    ensures value { result ≡ (write_all_of max_dss_sessions fields.now cids.now out.old).answer }
    ensures out_after { out.new ≡ (write_all_of max_dss_sessions fields.now cids.now out.old).output }
{
    judge(fields, cids)?;
    write_judged(max_dss_sessions, fields, cids, out)
}

// The lists judged, before the room is; the sessions are any number.
#[tactic(auto, using(crate::proofs::Laws::judged, crate::proofs::Laws::few_said, crate::proofs::Laws::cids_few, crate::proofs::Laws::total_fits, crate::proofs::Laws::total_is, crate::proofs::Laws::total_refused), unfolding(protocol::specs::Verdict::first_of))]
fn judge(fields: &[u32], cids: &[u32]) -> Verdict
    ensures { result ≡ lists_verdict 0 fields.now cids.now }
{
    judge_count(fields.len())?;
    let count = fields.len() as u32 / FIELD_WORDS as u32;
    let total = total_cids(Elements { fields, count })?;
    judge_total(count, total, cids.len())
}

// Whether n numbers are whole elements, and not too many. Both are refused alike, so that no number of
// more than 32 bits is divided.
#[tactic(auto, using(crate::proofs::Laws::count_many, crate::proofs::Laws::count_few), unfolding(protocol::specs::Verdict::first_of, protocol::specs::Verdict::fault_if))]
fn judge_count(n: usize) -> Verdict
    ensures { result ≡ first_of (fault_if (not (eqb (n % 7) 0)) wrong_count 0) (fault_if (ltb 32 (n / 7)) wrong_count 0) }
{
    refuse_if(MOST_FIELDS < n, Reason::WrongCount, DEVICE_SERVICES_COUNT)?;
    refuse_if(
        n as u32 % FIELD_WORDS as u32 != 0,
        Reason::WrongCount,
        DEVICE_SERVICES_COUNT,
    )
}

// The CIDs of all elements, where each size is within its limit.
#[tactic(auto, using(crate::proofs::Laws::size_judged, folds::proofs::Laws::fits_next, folds::proofs::Laws::fault_at, crate::proofs::Laws::total_done, folds::proofs::Laws::sum_next), unfolding(folds::specs::Folds::first_fault, folds::specs::Folds::sum_of, crate::specs::ServicesLists::totalled, protocol::specs::Verdict::fault_if))]
fn total_cids(elements: Elements) -> Result<usize, Refusal>
    ensures { result ≡ totalled (first_fault (size_verdict (bare_of elements.entry.fields.now)) (count_of elements.entry.fields.now)) (cids_before elements.entry.fields.now (count_of elements.entry.fields.now)) }
{
    let mut total: usize = 0;
    for i in 0..elements.count {
        let n = cid_count(elements, i) as usize;
        let size = ELEMENT_FIXED_PART as usize + 4 * n;
        refuse_if(
            (ELEMENT_LIMIT as usize) < size,
            Reason::WrongSize,
            pair_place(i),
        )?;
        total += n;
    }
    Ok(total)
}

fn cid_count(elements: Elements, i: u32) -> u32
    requires { i < elements.count }
    ensures { result ≡ cids_counted elements.entry.fields.now i }
{
    elements.fields[FIELD_WORDS * i as usize + COUNT_WORD]
}

// The payload's length is judged, then whether so many CIDs are given.
#[tactic(auto, unfolding(crate::specs::ServicesLists::rest_verdict, protocol::specs::Verdict::first_of))]
fn judge_total(count: u32, total: usize, given: usize) -> Verdict
    requires few { count ≤ 32 }
    requires small { total ≤ 4096 }
    ensures { result ≡ rest_verdict count total given }
{
    refuse_if(
        MOST_INFORMATION < length_of(count, total),
        Reason::TooLong,
        0,
    )?;
    refuse_if(total != given, Reason::Contradiction, 0)
}

fn length_of(count: u32, total: usize) -> usize
    requires few { count ≤ 32 }
    requires small { total ≤ 4096 }
    ensures { result ≡ fixed_part count + 28 * count + 4 * total }
{
    pair_place(count) + ELEMENT_FIXED_PART as usize * count as usize + 4 * total
}

// What fits: the room is judged, and the bytes are put.
fn write_judged(max_dss_sessions: u32, fields: &[u32], cids: &[u32], out: &mut [u8]) -> Written
    requires { lists_verdict max_dss_sessions fields.now cids.now ≡ no_fault }
    ensures value { result ≡ (write_all_of max_dss_sessions fields.now cids.now out.old).answer }
    ensures out_after { out.new ≡ (write_all_of max_dss_sessions fields.now cids.now out.old).output }
{
    let count = fields.len() as u32 / FIELD_WORDS as u32;
    let n = length_of(count, cids.len());
    refuse_if(out.len() < n, Reason::OutputTooSmall, n)?;
    put_u32(out, DEVICE_SERVICES_COUNT, count);
    put_u32(out, MAX_DSS_SESSIONS, max_dss_sessions);
    let elements = Elements { fields, count };
    put_pairs(elements, out);
    put_elements(elements, cids, out);
    Ok(n)
}

#[tactic(auto, using(crate::proofs::Laws::start_inside, crate::proofs::Laws::start_least, crate::proofs::Laws::start_more, crate::proofs::Laws::pair_more), unfolding(folds::specs::Folds::joined, folds::specs::Folds::sum_of, services_writer::specs::ServicesWriter::start_of))]
fn put_pairs(elements: Elements, out: &mut [u8])
    requires { length_of (bare_of elements.fields.now) ≤ 4096 }
    ensures { out.new ≡ sets out.old 8 (joined (pair_bytes (bare_of elements.entry.fields.now)) (count_of elements.entry.fields.now)) }
{
    let mut start = pair_place(elements.count) as u32;
    for i in 0..elements.count {
        let size = ELEMENT_FIXED_PART + 4 * cid_count(elements, i);
        let pair = Range {
            start,
            length: size,
        };
        put_range(out, pair_place(i), pair);
        start += size;
    }
}

fn put_elements(elements: Elements, cids: &[u32], out: &mut [u8])
    requires given { cids_before elements.fields.now (count_of elements.fields.now) ≤ length cids.now }
    requires room { length_of (record_of 0 elements.fields.now cids.now) ≤ length out.old }
    ensures { out.new ≡ sets out.old (fixed_part (count_of elements.entry.fields.now)) (joined (piece (record_of 0 elements.entry.fields.now cids.now)) (count_of elements.entry.fields.now)) }
{
    let mut start = pair_place(elements.count);
    let mut from: usize = 0;
    for i in 0..elements.count {
        let first = FIELD_WORDS * i as usize;
        let n = cid_count(elements, i) as usize;
        let numbers = &elements.fields[first..first + FIELD_WORDS];
        put_words(
            numbers,
            0,
            &mut out[start..start + ELEMENT_FIXED_PART as usize],
        );
        start += ELEMENT_FIXED_PART as usize;
        put_words(&cids[from..from + n], 0, &mut out[start..start + 4 * n]);
        start += 4 * n;
        from += n;
    }
}
