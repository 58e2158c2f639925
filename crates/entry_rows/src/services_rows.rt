// The rows of a DEVICE_SERVICES payload, read strictly.
ghost use Rattle.std.specs.Prelude.{◌≡◌, ◌+◌, ◌<◌};
ghost use Rattle.protocol.specs.Service.{id_bytes};
ghost use Rattle.pairs.specs.declared.ZeroSize.TheVariants.{Strict};
ghost use Rattle.device_services.specs.DeviceServices.{read_with};
ghost use Rattle.rows.specs.Rows.{Put};
ghost use Rattle.entry_rows.specs.Services.{id_row, cid_row, cid_rows, element_rows, elements_rows, services_text};

use device_services::{DeviceServices, judged_cid, judged_element, judged_offset};
use pairs::ZeroSize;
use protocol::service::{ServiceId, put_id};
use rows::{put_digits, put_field, put_indexed_row, put_number, put_refused, put_row, put_text};

#[tactic(auto, unfolding(crate::specs::Services::services_text))]
pub fn put(payload: &[u8], out: &mut [u8], at: usize) -> usize
    ensures { Put out.old at (services_text payload.now (read_with Strict payload.now)) out.new result }
{
    match device_services::read_with(ZeroSize::Strict, payload) {
        Err(refusal) => put_refused(out, at, refusal),
        Ok(head) => {
            let count = put_text(out, at, b"field\tvalue\n");
            let sessions = put_row(
                out,
                count,
                b"DeviceServicesCount",
                head.device_services_count as u64,
            );
            let list = put_row(
                out,
                sessions,
                b"MaxDssSessions",
                head.max_dss_sessions as u64,
            );
            put_elements(payload, head.device_services_count, out, list)
        }
    }
}

fn put_elements(payload: &[u8], count: u32, out: &mut [u8], at: usize) -> usize
    ensures { Put out.old at (elements_rows payload.now count) out.new result }
{
    let mut next = at;
    for i in 0..count {
        next = put_element(payload, judged_offset(payload, i), i, out, next);
    }
    next
}

// Element i, which starts at `offset`.
fn put_element(payload: &[u8], offset: u32, i: u32, out: &mut [u8], at: usize) -> usize
    ensures { Put out.old at (element_rows payload.now offset i) out.new result }
{
    let element = judged_element(payload, offset);
    let number = i as usize;
    let id = element.device_service_id;
    let payloads = put_id_row(out, at, number, id);
    let instances = put_indexed_row(
        out,
        payloads,
        b"DssPayload",
        number,
        element.dss_payload as u64,
    );
    let cids = put_indexed_row(
        out,
        instances,
        b"MaxDssInstances",
        number,
        element.max_dss_instances as u64,
    );
    let list = put_indexed_row(out, cids, b"CidCount", number, element.cid_count as u64);
    put_cids(payload, offset, element.cid_count, number, out, list)
}

fn put_cids(payload: &[u8], offset: u32, count: u32, i: usize, out: &mut [u8], at: usize) -> usize
    ensures { Put out.old at (cid_rows payload.now offset i count) out.new result }
{
    let mut next = at;
    for j in 0..count {
        next = put_cid(out, next, i, j as usize, judged_cid(payload, offset, j));
    }
    next
}

// CID j of element i.
fn put_cid(out: &mut [u8], at: usize, i: usize, j: usize, cid: u32) -> usize
    ensures { Put out.old at (cid_row i j cid) out.new result }
{
    let first = put_text(out, at, b"Cid[");
    let between = put_number(out, first, i as u64);
    let second = put_text(out, between, b"][");
    let close = put_number(out, second, j as u64);
    let tab = put_text(out, close, b"]");
    let end = put_field(out, tab, cid as u64);
    put_text(out, end, b"\n")
}

// The service id of element i, in printed order.
fn put_id_row(out: &mut [u8], at: usize, i: usize, id: ServiceId) -> usize
    ensures { Put out.old at (id_row i id) out.new result }
{
    let index = put_text(out, at, b"DeviceServiceId[");
    let close = put_number(out, index, i as u64);
    let digits = put_text(out, close, b"]\t");
    let bytes = id_bytes(id);
    let end = put_digits(out, digits, &bytes);
    put_text(out, end, b"\n")
}

#[tactic(auto, unfolding(protocol::specs::Service::id_bytes))]
fn id_bytes(id: ServiceId) -> [u8; 16]
    ensures { result ≡ id_bytes id }
{
    let mut bytes = [0u8; 16];
    put_id(&mut bytes, 0, id);
    bytes
}
