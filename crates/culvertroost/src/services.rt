// DEVICE_SERVICES, for C. `.._with`: by the reader's choice, whose number is judged first. What travels together stays
// apart, and each function has its two forms: the C interface.
ghost use Rattle.std.specs.Prelude.{◌≡◌};
ghost use Rattle.protocol.specs.Service.{id_at};
ghost use Rattle.device_services.specs.DeviceServices.{read_of};
ghost use Rattle.services_query.specs.ServicesQuery.{element_of, element_with, cids_of, cids_with, listed_of, all_of};
ghost use Rattle.services_ask.specs.ServicesAsk.{position_of};
ghost use Rattle.services_lists.specs.ServicesLists.{write_all_of};
ghost use Rattle.services_writer.specs.ServicesWriter.{write_of};
ghost use Rattle.c_structs.specs.Answers.{written_answer};
ghost use Rattle.c_structs.specs.Services.{answer_of, element_info, listed_info, position_info, all_info};
ghost use Rattle.culvertroost.specs.Services.{read_chosen, element_chosen, cids_chosen, listed_chosen, position_chosen, all_chosen};

use c_structs::WrittenAnswer;
use c_structs::choices::zero_size_at;
use c_structs::services::{AllInfo, DeviceServicesAnswer, ElementInfo, ListedInfo, PositionInfo};
use device_services::{DeviceServices, read, read_with};
use pairs::ZeroSize;
use protocol::Refusal;
use protocol::service::{ServiceId, id_at};
use services_ask::{Position, ask, ask_with};
use services_lists::write_all;
use services_query::all::{AllListed, all_elements, all_elements_with};
use services_query::{cids_of_with, element_with, is_listed, is_listed_with};
use services_writer::{ServiceList, write};

pub fn cvr_device_services_read(payload: &[u8]) -> DeviceServicesAnswer
    ensures { result ≡ answer_of (read_of payload.now) }
{
    DeviceServicesAnswer::from(read(payload))
}

pub fn cvr_device_services_read_with(zero_size: u32, payload: &[u8]) -> DeviceServicesAnswer
    ensures { result ≡ answer_of (read_chosen zero_size payload.now) }
{
    DeviceServicesAnswer::from(read_chosen(zero_size, payload))
}

// The element with a number, from 0; its CIDs go to the front of the list.
pub fn cvr_device_services_element(payload: &[u8], number: u32, cids: &mut [u32]) -> ElementInfo
    ensures value { result ≡ element_info (element_of payload.now number cids.old).answer }
    ensures cids_after { cids.new ≡ (element_of payload.now number cids.old).output }
{
    element_by(ZeroSize::Absent, payload, number, cids)
}

pub fn cvr_device_services_element_with(
    zero_size: u32,
    payload: &[u8],
    number: u32,
    cids: &mut [u32],
) -> ElementInfo
    ensures value { result ≡ element_info (element_chosen zero_size payload.now number cids.old).answer }
    ensures cids_after { cids.new ≡ (element_chosen zero_size payload.now number cids.old).output }
{
    match zero_size_at(zero_size) {
        Ok(choice) => element_by(choice, payload, number, cids),
        Err(refusal) => ElementInfo::from(Err(refusal)),
    }
}

// The first element of a service; its CIDs go to the front of the list.
pub fn cvr_device_services_cids(payload: &[u8], service: ServiceId, cids: &mut [u32]) -> ElementInfo
    ensures value { result ≡ element_info (cids_of payload.now service cids.old).answer }
    ensures cids_after { cids.new ≡ (cids_of payload.now service cids.old).output }
{
    cids_by(ZeroSize::Absent, payload, service, cids)
}

pub fn cvr_device_services_cids_with(
    zero_size: u32,
    payload: &[u8],
    service: ServiceId,
    cids: &mut [u32],
) -> ElementInfo
    ensures value { result ≡ element_info (cids_chosen zero_size payload.now service cids.old).answer }
    ensures cids_after { cids.new ≡ (cids_chosen zero_size payload.now service cids.old).output }
{
    match zero_size_at(zero_size) {
        Ok(choice) => cids_by(choice, payload, service, cids),
        Err(refusal) => ElementInfo::from(Err(refusal)),
    }
}

// All elements, each as seven numbers, and all CIDs, element by element, at the fronts of the lists.
pub fn cvr_device_services_all(payload: &[u8], fields: &mut [u32], cids: &mut [u32]) -> AllInfo
    ensures value { result ≡ all_info (all_of payload.now fields.old cids.old).answer }
    ensures fields_after { fields.new ≡ (all_of payload.now fields.old cids.old).fields }
    ensures cids_after { cids.new ≡ (all_of payload.now fields.old cids.old).cids }
{
    AllInfo::from(all_elements(payload, fields, cids))
}

pub fn cvr_device_services_all_with(
    zero_size: u32,
    payload: &[u8],
    fields: &mut [u32],
    cids: &mut [u32],
) -> AllInfo
    ensures value { result ≡ all_info (all_chosen zero_size payload.now fields.old cids.old).answer }
    ensures fields_after { fields.new ≡ (all_chosen zero_size payload.now fields.old cids.old).fields }
    ensures cids_after { cids.new ≡ (all_chosen zero_size payload.now fields.old cids.old).cids }
{
    AllInfo::from(all_chosen(zero_size, payload, fields, cids))
}

// Whether any element is of the service and holds the CID.
pub fn cvr_device_services_listed(payload: &[u8], service: ServiceId, cid: u32) -> ListedInfo
    ensures { result ≡ listed_info (listed_of payload.now service cid) }
{
    ListedInfo::from(is_listed(payload, service, cid))
}

pub fn cvr_device_services_listed_with(
    zero_size: u32,
    payload: &[u8],
    service: ServiceId,
    cid: u32,
) -> ListedInfo
    ensures { result ≡ listed_info (listed_chosen zero_size payload.now service cid) }
{
    ListedInfo::from(listed_chosen(zero_size, payload, service, cid))
}

// The same, judged no further than the answer needs, and where.
pub fn cvr_device_services_ask(payload: &[u8], service: ServiceId, cid: u32) -> PositionInfo
    ensures { result ≡ position_info (position_of payload.now service cid) }
{
    PositionInfo::from(ask(payload, service, cid))
}

pub fn cvr_device_services_ask_with(
    zero_size: u32,
    payload: &[u8],
    service: ServiceId,
    cid: u32,
) -> PositionInfo
    ensures { result ≡ position_info (position_chosen zero_size payload.now service cid) }
{
    PositionInfo::from(position_chosen(zero_size, payload, service, cid))
}

pub fn cvr_device_services_write(list: ServiceList, out: &mut [u8]) -> WrittenAnswer
    ensures value { result ≡ written_answer (write_of list out.old).answer }
    ensures out_after { out.new ≡ (write_of list out.old).output }
{
    WrittenAnswer::from(write(list, out))
}

// Each element as seven numbers, and all CIDs, element by element: the writer with no record.
pub fn cvr_device_services_write_all(
    max_dss_sessions: u32,
    fields: &[u32],
    cids: &[u32],
    out: &mut [u8],
) -> WrittenAnswer
    ensures value { result ≡ written_answer (write_all_of max_dss_sessions fields.now cids.now out.old).answer }
    ensures out_after { out.new ≡ (write_all_of max_dss_sessions fields.now cids.now out.old).output }
{
    WrittenAnswer::from(write_all(max_dss_sessions, fields, cids, out))
}

// The id whose printed bytes come first, zero where there are none.
pub fn cvr_service_id(bytes: &[u8]) -> ServiceId
    ensures { result ≡ id_at bytes.now 0 }
{
    id_at(bytes, 0)
}

// `.._chosen`: the choice is judged by its number, and then the list read or asked by it.
fn read_chosen(zero_size: u32, payload: &[u8]) -> Result<DeviceServices, Refusal>
    ensures { result ≡ read_chosen zero_size payload.now }
{
    let choice = zero_size_at(zero_size)?;
    read_with(choice, payload)
}

// One function for both, which makes C's answer where it reads, so that no answer is copied on its way.
fn element_by(choice: ZeroSize, payload: &[u8], number: u32, cids: &mut [u32]) -> ElementInfo
    ensures value { result ≡ element_info (element_with choice payload.now number cids.old).answer }
    ensures cids_after { cids.new ≡ (element_with choice payload.now number cids.old).output }
{
    ElementInfo::from(element_with(choice, payload, number, cids))
}

fn cids_by(choice: ZeroSize, payload: &[u8], service: ServiceId, cids: &mut [u32]) -> ElementInfo
    ensures value { result ≡ element_info (cids_with choice payload.now service cids.old).answer }
    ensures cids_after { cids.new ≡ (cids_with choice payload.now service cids.old).output }
{
    ElementInfo::from(cids_of_with(choice, payload, service, cids))
}

fn all_chosen(
    zero_size: u32,
    payload: &[u8],
    fields: &mut [u32],
    cids: &mut [u32],
) -> Result<AllListed, Refusal>
    ensures value { result ≡ (all_chosen zero_size payload.now fields.old cids.old).answer }
    ensures fields_after { fields.new ≡ (all_chosen zero_size payload.now fields.old cids.old).fields }
    ensures cids_after { cids.new ≡ (all_chosen zero_size payload.now fields.old cids.old).cids }
{
    let choice = zero_size_at(zero_size)?;
    all_elements_with(choice, payload, fields, cids)
}

fn listed_chosen(
    zero_size: u32,
    payload: &[u8],
    service: ServiceId,
    cid: u32,
) -> Result<bool, Refusal>
    ensures { result ≡ listed_chosen zero_size payload.now service cid }
{
    let choice = zero_size_at(zero_size)?;
    is_listed_with(choice, payload, service, cid)
}

fn position_chosen(
    zero_size: u32,
    payload: &[u8],
    service: ServiceId,
    cid: u32,
) -> Result<Option<Position>, Refusal>
    ensures { result ≡ position_chosen zero_size payload.now service cid }
{
    let choice = zero_size_at(zero_size)?;
    ask_with(choice, payload, service, cid)
}
