// The DEVICE_SERVICES payload: its record and its writer. The record is passed by value and is
// large (about 17 KB); a program that only reads needs nothing of this crate.
#![tactic(auto)]

ghost use Rattle.std.specs.Prelude.{◌≡◌, ◌+◌, ◌*◌, ◌≤◌, ◌<◌, ltb, length};
ghost use Rattle.std.proofs.lemmas.List.Edits.{sets};
ghost use Rattle.wire.specs.Numbers.{digits};
ghost use Rattle.protocol.specs.Refusal.{output_too_small, too_long};
ghost use Rattle.protocol.specs.Verdict.{fault_if, first_of};
ghost use Rattle.pairs.specs.Pair.{range, range_bytes};
ghost use Rattle.device_services.specs.DeviceServices.{pair_place};
ghost use Rattle.services_writer.specs.ServicesWriter.{field_bytes, cid_bytes, element_bytes, write_of};

use device_services::{
    CID_COUNT, DEVICE_SERVICES_COUNT, DSS_PAYLOAD, DeviceService, ELEMENT_FIXED_PART,
    ELEMENT_LIMIT, MAX_DSS_INSTANCES, MAX_DSS_SESSIONS, MOST_SERVICES, pair_place,
};
use pairs::{Range, put_range};
use protocol::service::put_id;
use protocol::{MOST_INFORMATION, Reason, Verdict, Written, refuse_if};
use wire::put_u32;

// An element with its CIDs, of which the first `cid_count` count.
#[repr(C)]
#[derive(Clone, Copy)]
pub struct ServiceElement {
    pub fields: DeviceService,
    pub cids: [u32; 128],
}

// The record, of whose elements the first `device_services_count` count: in the C interface as it is, and with no heap.
#[repr(C)]
#[derive(Clone, Copy)]
pub struct ServiceList {
    pub device_services_count: u32,
    pub max_dss_sessions: u32,
    pub elements: [ServiceElement; 32],
}

#[tactic(auto, unfolding(crate::specs::ServicesWriter::write_of, protocol::specs::Verdict::writing, protocol::specs::Verdict::with_room, protocol::specs::Verdict::given, crate::specs::ServicesWriter::written_verdict, protocol::specs::Verdict::first_of, protocol::specs::Verdict::fault_if))]
pub fn write(list: ServiceList, out: &mut [u8]) -> Written
    ensures value { result ≡ (write_of list out.old).answer }
    ensures out_after { out.new ≡ (write_of list out.old).output }
{
    refuse_if(
        MOST_SERVICES < list.device_services_count,
        Reason::WrongCount,
        DEVICE_SERVICES_COUNT,
    )?;
    write_listed(&list, out)
}

// A count that fits: the sizes are judged, then the length and the room, and the bytes are put.
fn write_listed(list: &ServiceList, out: &mut [u8]) -> Written
    requires { list.now.device_services_count ≤ 32 }
    ensures value { result ≡ (write_of list.now out.old).answer }
    ensures out_after { out.new ≡ (write_of list.now out.old).output }
{
    let count = list.device_services_count;
    let mut end = pair_place(count);
    for i in 0..count {
        let cids = list.elements[i as usize].fields.cid_count as usize;
        let size = ELEMENT_FIXED_PART as usize + 4 * cids;
        refuse_if(
            (ELEMENT_LIMIT as usize) < size,
            Reason::WrongSize,
            pair_place(i),
        )?;
        end += size;
    }
    judge_end(end, out.len())?;
    put_head(count, list.max_dss_sessions, out);
    let mut start = pair_place(count) as u32;
    for number in 0..count {
        start = put_listed(out, number, start, &list.elements[number as usize]);
    }
    Ok(end)
}

// The verdict on the length of the payload, and then on the room for it.
#[tactic(auto, unfolding(protocol::specs::Verdict::first_of, protocol::specs::Verdict::fault_if))]
fn judge_end(n: usize, room: usize) -> Verdict
    ensures { result ≡ first_of (fault_if (ltb 4096 n) too_long 0) (fault_if (ltb room n) output_too_small n) }
{
    refuse_if(MOST_INFORMATION < n, Reason::TooLong, 0)?;
    refuse_if(room < n, Reason::OutputTooSmall, n)
}

// What stands before the pairs.
fn put_head(count: u32, sessions: u32, out: &mut [u8])
    ensures { out.new ≡ sets (sets out.old 0 (digits 4 count)) 4 (digits 4 sessions) }
{
    put_u32(out, DEVICE_SERVICES_COUNT, count);
    put_u32(out, MAX_DSS_SESSIONS, sessions);
}

// The pair and the bytes of an element that starts at `start`; where the next one does.
fn put_listed(out: &mut [u8], number: u32, start: u32, element: &ServiceElement) -> u32
    requires few { element.now.fields.cid_count ≤ 128 }
    requires short { start ≤ 4096 }
    requires room { start + (28 + 4 * element.now.fields.cid_count) ≤ length out.old }
    ensures value { result ≡ start + (28 + 4 * element.now.fields.cid_count) }
    ensures out_after { out.new ≡ sets (sets out.old (pair_place number) (range_bytes (range start (28 + 4 * element.now.fields.cid_count)))) start (element_bytes element.now) }
{
    let cids = element.fields.cid_count;
    let size = ELEMENT_FIXED_PART + 4 * cids;
    let pair = Range {
        start,
        length: size,
    };
    put_range(out, pair_place(number), pair);
    let at = start as usize;
    put_fields(out, at, element.fields);
    put_fitting(
        &element.cids[..cids as usize],
        at + ELEMENT_FIXED_PART as usize,
        out,
    );
    start + size
}

#[tactic(auto, using(crate::proofs::Laws::fields_put))]
fn put_fields(out: &mut [u8], start: usize, fields: DeviceService)
    requires { start ≤ 4096 }
    ensures { out.new ≡ sets out.old start (field_bytes fields) }
{
    put_id(out, start, fields.device_service_id);
    put_u32(out, start + DSS_PAYLOAD, fields.dss_payload);
    put_u32(out, start + MAX_DSS_INSTANCES, fields.max_dss_instances);
    put_u32(out, start + CID_COUNT, fields.cid_count);
}

// The words one after another from a place on; without the room for all of them the output stays as it
// was.
pub fn put_words(words: &[u32], at: usize, out: &mut [u8])
    ensures stored { at + 4 * length words.now ≤ length out.old → out.new ≡ sets out.old at (cid_bytes words.now (length words.now)) }
    ensures kept { length out.old < at + 4 * length words.now → out.new ≡ out.old }
{
    if at.saturating_add(4 * words.len()) <= out.len() {
        put_fitting(words, at, out);
    }
}

// Each word has its part of the output, so that no store is tested.
#[inline(always)]
fn put_fitting(words: &[u32], at: usize, out: &mut [u8])
    requires { at + 4 * length words.now ≤ length out.old }
    ensures { out.new ≡ sets out.old at (cid_bytes words.now (length words.now)) }
{
    for (i, word) in words.iter().enumerate() {
        let place = at + 4 * i;
        put_u32(&mut out[place..place + 4], 0, *word);
    }
}
