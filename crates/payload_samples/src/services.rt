// The list of services: questions 10 to 13 and 51, and 39 to 41 and 52 by the reader's choice.
ghost use Rattle.std.specs.Prelude.{◌≤◌};

use c_structs::WrittenAnswer;
use c_structs::services::{ElementInfo, ListedInfo, PositionInfo};
use culvertroost::services::{
    cvr_device_services_ask, cvr_device_services_ask_with, cvr_device_services_cids,
    cvr_device_services_cids_with, cvr_device_services_element, cvr_device_services_element_with,
    cvr_device_services_listed, cvr_device_services_listed_with, cvr_device_services_write,
};
use device_services::DeviceService;
use protocol::service::id_at;
use sample_lines::answers::{Asked, few, least, plain, short, word_at};
use services_writer::{ServiceElement, ServiceList};

pub fn element(question: u8, arguments: &[u8], input: &[u8], list: &mut [u32]) -> Asked {
    let answer = chosen(question, arguments, input, list);
    let refusal = answer.refusal;
    let element = answer.element;
    let service = element.device_service_id;
    let numbers = [
        refusal.number,
        short(refusal.place),
        answer.listed,
        service.word0,
        service.word1,
        service.word2,
        service.word3,
        element.dss_payload,
        element.max_dss_instances,
        element.cid_count,
        0,
        0,
        0,
        0,
        0,
        0,
    ];
    Asked {
        numbers,
        count: 10,
        written: 0,
        listed: element.cid_count,
    }
}

// By its number, or by the service at the front of the input.
fn chosen(question: u8, arguments: &[u8], input: &[u8], list: &mut [u32]) -> ElementInfo {
    let second = word_at(arguments, 2);
    let service = id_at(input, 0);
    let from = least(16, input.len());
    let payload = &input[from..];
    match question {
        10 => cvr_device_services_element(input, second, list),
        11 => cvr_device_services_cids(payload, service, list),
        39 => cvr_device_services_element_with(word_at(arguments, 3), input, second, list),
        _ => cvr_device_services_cids_with(second, payload, service, list),
    }
}

pub fn listed(question: u8, arguments: &[u8], input: &[u8]) -> Asked {
    let answer = is_listed(question, arguments, input);
    let refusal = answer.refusal;
    plain(few(refusal.number, refusal.place, answer.listed, 0, 0))
}

fn is_listed(question: u8, arguments: &[u8], input: &[u8]) -> ListedInfo {
    let service = id_at(input, 0);
    let from = least(16, input.len());
    let payload = &input[from..];
    let cid = word_at(arguments, 1);
    if question == 12 {
        return cvr_device_services_listed(payload, service, cid);
    }
    cvr_device_services_listed_with(word_at(arguments, 2), payload, service, cid)
}

pub fn position(question: u8, arguments: &[u8], input: &[u8]) -> Asked {
    let answer = position_of(question, arguments, input);
    let refusal = answer.refusal;
    plain(few(
        refusal.number,
        refusal.place,
        answer.listed,
        answer.element_number,
        answer.cid_number,
    ))
}

fn position_of(question: u8, arguments: &[u8], input: &[u8]) -> PositionInfo {
    let service = id_at(input, 0);
    let from = least(16, input.len());
    let payload = &input[from..];
    let cid = word_at(arguments, 1);
    if question == 51 {
        return cvr_device_services_ask(payload, service, cid);
    }
    cvr_device_services_ask_with(word_at(arguments, 2), payload, service, cid)
}

pub fn services_write(arguments: &[u8], input: &[u8], out: &mut [u8]) -> WrittenAnswer {
    let elements = elements_of(arguments, input);
    let list = ServiceList {
        device_services_count: word_at(arguments, 2),
        max_dss_sessions: word_at(arguments, 3),
        elements,
    };
    cvr_device_services_write(list, out)
}

// The elements stand one after another, and so do their services in the input.
fn elements_of(arguments: &[u8], input: &[u8]) -> [ServiceElement; 32] {
    let first = element_at(arguments, 4, input, 0);
    let mut elements = [first; 32];
    let mut place = after_element(arguments, 4);
    for i in 1..32 {
        elements[i] = element_at(arguments, place, input, 16 * i);
        place = after_element(arguments, place);
    }
    elements
}

fn element_at(arguments: &[u8], place: u32, input: &[u8], service: usize) -> ServiceElement
    requires { place ≤ 65535 }
{
    let device_service_id = id_at(input, service);
    let fields = DeviceService {
        device_service_id,
        dss_payload: word_at(arguments, place),
        max_dss_instances: word_at(arguments, place + 1),
        cid_count: word_at(arguments, place + 2),
    };
    let cids = cids_at(arguments, place + 3);
    ServiceElement { fields, cids }
}

// 128 of them; those past the element's count are the arguments that come next.
fn cids_at(arguments: &[u8], place: u32) -> [u32; 128]
    requires { place ≤ 131071 }
{
    let mut cids = [0u32; 128];
    for i in 0..128 {
        cids[i as usize] = word_at(arguments, place + i);
    }
    cids
}

// Where the next element stands; no line is so long that the last place is reached.
fn after_element(arguments: &[u8], place: u32) -> u32
    requires { place ≤ 65535 }
    ensures { result ≤ 65535 }
{
    let count = word_at(arguments, place + 2).min(128);
    (place + 3 + count).min(65535)
}
