// The DEVICE_SERVICES payload's answers in C's layout.
ghost use Rattle.std.specs.Prelude.{◌≡◌};
ghost use Rattle.c_structs.specs.Services.{no_info, no_element, not_listed, answer_of, element_info, unlisted, listed_info, position_info, all_info};

use crate::{RefusalInfo, no_refusal};
use device_services::{DeviceService, DeviceServices};
use protocol::Refusal;
use protocol::service::ServiceId;
use services_ask::Position;
use services_query::all::AllListed;

#[repr(C)]
#[derive(Clone, Copy)]
pub struct DeviceServicesAnswer {
    pub refusal: RefusalInfo,
    pub info: DeviceServices,
}

// 1 and the element, or 0 where it is not listed.
#[repr(C)]
#[derive(Clone, Copy)]
pub struct ElementInfo {
    pub refusal: RefusalInfo,
    pub listed: u32,
    pub element: DeviceService,
}

// 1 where it is listed, else 0.
#[repr(C)]
#[derive(Clone, Copy)]
pub struct ListedInfo {
    pub refusal: RefusalInfo,
    pub listed: u32,
}

// 1 and the position where it is listed, else 0.
#[repr(C)]
#[derive(Clone, Copy)]
pub struct PositionInfo {
    pub refusal: RefusalInfo,
    pub listed: u32,
    pub element_number: u32,
    pub cid_number: u32,
}

// How many elements and CIDs stand at the fronts of the caller's lists.
#[repr(C)]
#[derive(Clone, Copy)]
pub struct AllInfo {
    pub refusal: RefusalInfo,
    pub elements: u32,
    pub cids: usize,
}

impl From<Result<DeviceServices, Refusal>> for DeviceServicesAnswer {
    #[tactic(auto, unfolding(crate::specs::Services::answer_of))]
    fn from(read: Result<DeviceServices, Refusal>) -> DeviceServicesAnswer
        ensures { result ≡ answer_of read }
    {
        match read {
            Ok(info) => DeviceServicesAnswer {
                refusal: no_refusal(),
                info,
            },
            Err(refusal) => DeviceServicesAnswer {
                refusal: RefusalInfo::from(refusal),
                info: no_info(),
            },
        }
    }
}

impl From<Result<Option<DeviceService>, Refusal>> for ElementInfo {
    #[tactic(auto, unfolding(crate::specs::Services::element_info))]
    fn from(answer: Result<Option<DeviceService>, Refusal>) -> ElementInfo
        ensures { result ≡ element_info answer }
    {
        match answer {
            // By its numbers: as one struct it would go through memory, and a word of it in two parts, since a
            // refusal's reason has the same place.
            Ok(
                Some(
                    DeviceService {
                        device_service_id: ServiceId {
                            word0,
                            word1,
                            word2,
                            word3,
                        },
                        dss_payload,
                        max_dss_instances,
                        cid_count,
                    },
                ),
            ) => ElementInfo {
                refusal: no_refusal(),
                listed: 1,
                element: DeviceService {
                    device_service_id: ServiceId {
                        word0,
                        word1,
                        word2,
                        word3,
                    },
                    dss_payload,
                    max_dss_instances,
                    cid_count,
                },
            },
            Ok(None) => unlisted(no_refusal()),
            Err(refusal) => unlisted(RefusalInfo::from(refusal)),
        }
    }
}

// No element, with a refusal or without.
fn unlisted(refusal: RefusalInfo) -> ElementInfo
    ensures { result ≡ unlisted refusal }
{
    ElementInfo {
        refusal,
        listed: 0,
        element: no_element(),
    }
}

impl From<Result<bool, Refusal>> for ListedInfo {
    #[tactic(auto, unfolding(crate::specs::Services::listed_info))]
    fn from(answer: Result<bool, Refusal>) -> ListedInfo
        ensures { result ≡ listed_info answer }
    {
        match answer {
            Ok(listed) => ListedInfo {
                refusal: no_refusal(),
                listed: u32::from(listed),
            },
            Err(refusal) => ListedInfo {
                refusal: RefusalInfo::from(refusal),
                listed: 0,
            },
        }
    }
}

impl From<Result<Option<Position>, Refusal>> for PositionInfo {
    #[tactic(auto, unfolding(crate::specs::Services::position_info))]
    fn from(answer: Result<Option<Position>, Refusal>) -> PositionInfo
        ensures { result ≡ position_info answer }
    {
        match answer {
            Ok(Some(position)) => PositionInfo {
                refusal: no_refusal(),
                listed: 1,
                element_number: position.element_number,
                cid_number: position.cid_number,
            },
            Ok(None) => not_listed(no_refusal()),
            Err(refusal) => not_listed(RefusalInfo::from(refusal)),
        }
    }
}

fn not_listed(refusal: RefusalInfo) -> PositionInfo
    ensures { result ≡ not_listed refusal }
{
    PositionInfo {
        refusal,
        listed: 0,
        element_number: 0,
        cid_number: 0,
    }
}

impl From<Result<AllListed, Refusal>> for AllInfo {
    #[tactic(auto, unfolding(crate::specs::Services::all_info))]
    fn from(answer: Result<AllListed, Refusal>) -> AllInfo
        ensures { result ≡ all_info answer }
    {
        match answer {
            Ok(listed) => AllInfo {
                refusal: no_refusal(),
                elements: listed.elements,
                cids: listed.cids,
            },
            Err(refusal) => AllInfo {
                refusal: RefusalInfo::from(refusal),
                elements: 0,
                cids: 0,
            },
        }
    }
}

fn no_info() -> DeviceServices
    ensures { result ≡ no_info }
{
    DeviceServices {
        device_services_count: 0,
        max_dss_sessions: 0,
    }
}

fn no_element() -> DeviceService
    ensures { result ≡ no_element }
{
    let device_service_id = ServiceId {
        word0: 0,
        word1: 0,
        word2: 0,
        word3: 0,
    };
    DeviceService {
        device_service_id,
        dss_payload: 0,
        max_dss_instances: 0,
        cid_count: 0,
    }
}
