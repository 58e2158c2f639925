// Whether a list of services holds one CID, and where: judged no further than the answer needs.
#![tactic(auto)]

ghost use Rattle.std.specs.Prelude.{◌≡◌};
ghost use Rattle.services_ask.specs.ServicesAsk.{position_with, position_of};

use device_services::{bounded_count, judge_part, judged_cid, judged_cid_count, judged_offset};
use pairs::ZeroSize;
use protocol::Refusal;
use protocol::service::ServiceId;
use services_query::is_of;

// A CID of an element; both numbers count from 0.
#[derive(Clone, Copy)]
pub struct Position {
    pub element_number: u32,
    pub cid_number: u32,
}

// The position is that of the first match in listed order.
pub fn ask(payload: &[u8], service: ServiceId, cid: u32) -> Result<Option<Position>, Refusal>
    ensures { result ≡ position_of payload.now service cid }
{
    ask_with(ZeroSize::Absent, payload, service, cid)
}

// By the caller's choice. Up to the first fault or match: the elements up to one of the service are
// judged in one go, with the list's length and count, before its CIDs count. No more than a list can have
// are gone through.
pub fn ask_with(
    zero_size: ZeroSize,
    payload: &[u8],
    service: ServiceId,
    cid: u32,
) -> Result<Option<Position>, Refusal>
    ensures { result ≡ position_with zero_size payload.now service cid }
{
    let end = bounded_count(payload);
    let mut next: u32 = 0;
    for i in 0..end {
        if is_of(payload, service, i) {
            judge_part(zero_size, payload, next, i + 1)?;
            let offset = judged_offset(payload, i);
            for k in 0..judged_cid_count(payload, offset) {
                if judged_cid(payload, offset, k) == cid {
                    return Ok(Some(Position {
                        element_number: i,
                        cid_number: k,
                    }));
                }
            }
            next = i + 1;
        }
    }
    judge_part(zero_size, payload, next, end + 1)?;
    Ok(None)
}
