// What the writer of DEVICE_SERVICES gives, its reader and the questions show again: theorems, and
// one function that runs writer and question on any record.
#![tactic(auto)]

ghost use Rattle.std.specs.Prelude.{◌≡◌};
ghost use Rattle.services_writer.specs.ServicesWriter.{write_of};
ghost use Rattle.services_trip.specs.ServicesTrip.{asked_of};

use protocol::Refusal;
use protocol::service::ServiceId;
use services_query::is_listed;
use services_writer::{ServiceList, write};

// A record written into the caller's bytes, and a CID looked up in them.
pub fn write_and_ask(
    list: ServiceList,
    service: ServiceId,
    cid: u32,
    out: &mut [u8],
) -> Result<bool, Refusal>
    ensures value { result ≡ asked_of list service cid out.old }
    ensures out_after { out.new ≡ (write_of list out.old).output }
{
    let written = write(list, out)?;
    is_listed(&out[..written], service, cid)
}
