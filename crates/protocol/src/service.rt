// The known services, and the payload that each of their CIDs carries.
ghost use Rattle.std.specs.Prelude.{◌≡◌};
ghost use Rattle.std.proofs.lemmas.List.Edits.{sets};
ghost use Rattle.protocol.specs.Service.{basic_connect, extensions, id_at, id_bytes, same_id, basic_connect_cids, extensions_cids, among, kind_of};

use crate::{Reason, Refusal};
use wire::{put_u32, u32_at};

// The 16 bytes of a service id in printed order, as four little-endian words.
#[repr(C)]
#[derive(Clone, Copy, PartialEq, Eq)]
pub struct ServiceId {
    pub word0: u32,
    pub word1: u32,
    pub word2: u32,
    pub word3: u32,
}

// A payload that this library reads and writes.
#[derive(Clone, Copy)]
pub enum Kind {
    RegisterState,
    PacketService,
    SignalState,
    DeviceServices,
    VersionInfo,
    SetPin,
    PinInfo,
}

// The bytes of an id.
const ID_SIZE: usize = 16;

// CIDs of Basic Connect. A CID is any number until `kind_of` judges it; from there on it is a Kind.
pub const PIN: u32 = 4;

pub const REGISTER_STATE: u32 = 9;

pub const PACKET_SERVICE: u32 = 10;

pub const SIGNAL_STATE: u32 = 11;

pub const DEVICE_SERVICES: u32 = 16;

// CIDs of the extensions.
pub const VERSION: u32 = 15;

#[tactic(auto, unfolding(crate::specs::Service::basic_connect, crate::specs::Service::id_at, wire::specs::Numbers::u32_at))]
// The two ids are two constants with a proof each; nothing else is the same.
pub fn basic_connect_id() -> ServiceId
    ensures { result ≡ id_at basic_connect 0 }
{
    ServiceId {
        word0: 0x33CC89A2,
        word1: 0x4F8BBBBC,
        word2: 0x3E13B0B6,
        word3: 0xDFE6AAC2,
    }
}

#[tactic(auto, unfolding(crate::specs::Service::extensions, crate::specs::Service::id_at, wire::specs::Numbers::u32_at))]
pub fn extensions_id() -> ServiceId
    ensures { result ≡ id_at extensions 0 }
{
    ServiceId {
        word0: 0xC5DC013D,
        word1: 0x054DF5FE,
        word2: 0xF7BE3A0D,
        word3: 0xAF9A8E05,
    }
}

// The id at a place: where all of it is there, one test serves.
pub fn id_at(s: &[u8], at: usize) -> ServiceId
    ensures { result ≡ id_at s.now at }
{
    if s.len() <= at {
        return ServiceId {
            word0: 0,
            word1: 0,
            word2: 0,
            word3: 0,
        };
    }
    if s.len() - at < ID_SIZE {
        return ServiceId {
            word0: u32_at(s, at),
            word1: u32_at(s, at + 4),
            word2: u32_at(s, at + 8),
            word3: u32_at(s, at + 12),
        };
    }
    let id = &s[at..at + ID_SIZE];
    ServiceId {
        word0: u32_at(id, 0),
        word1: u32_at(id, 4),
        word2: u32_at(id, 8),
        word3: u32_at(id, 12),
    }
}

#[tactic(auto, using(wire::proofs::Laws::sets_out, crate::proofs::Services::four_words))]
pub fn put_id(out: &mut [u8], at: usize, id: ServiceId)
    ensures { out.new ≡ sets out.old at (id_bytes id) }
{
    if out.len() <= at {
        return;
    }
    put_u32(out, at, id.word0);
    put_u32(out, at + 4, id.word1);
    put_u32(out, at + 8, id.word2);
    put_u32(out, at + 12, id.word3);
}

#[tactic(auto, unfolding(crate::specs::Service::same_id))]
pub fn is_same_id(a: ServiceId, b: ServiceId) -> bool
    ensures { result ≡ same_id a b }
{
    a == b
}

// The payload of a known service and CID: the service is judged, then the CID.
#[tactic(auto, unfolding(crate::specs::Service::kind_of))]
pub fn kind_of(id: ServiceId, cid: u32) -> Result<Kind, Refusal>
    ensures { result ≡ kind_of id cid }
{
    if is_same_id(id, basic_connect_id()) {
        return basic_connect_kind(cid);
    }
    if is_same_id(id, extensions_id()) {
        return extensions_kind(cid);
    }
    Err(Refusal {
        reason: Reason::Unknown,
        place: 20,
    })
}

#[tactic(auto, unfolding(crate::specs::Service::among))]
fn basic_connect_kind(cid: u32) -> Result<Kind, Refusal>
    ensures { result ≡ among cid basic_connect_cids }
{
    match cid {
        PIN => Ok(Kind::PinInfo),
        REGISTER_STATE => Ok(Kind::RegisterState),
        PACKET_SERVICE => Ok(Kind::PacketService),
        SIGNAL_STATE => Ok(Kind::SignalState),
        DEVICE_SERVICES => Ok(Kind::DeviceServices),
        _ => Err(Refusal {
            reason: Reason::Unknown,
            place: 36,
        }),
    }
}

#[tactic(auto, unfolding(crate::specs::Service::among))]
fn extensions_kind(cid: u32) -> Result<Kind, Refusal>
    ensures { result ≡ among cid extensions_cids }
{
    match cid {
        VERSION => Ok(Kind::VersionInfo),
        _ => Err(Refusal {
            reason: Reason::Unknown,
            place: 36,
        }),
    }
}
