// The PACKET_SERVICE payload's record and answer in C's layout.
ghost use Rattle.std.specs.Prelude.{◌≡◌};
ghost use Rattle.c_structs.specs.Packets.{no_info, info_of, answer_of, record_of};

use crate::{RefusalInfo, no_refusal};
use handshake::number_of;
use packet_service::{PacketForm, PacketService, version_of};
use protocol::{Refusal, Version};

// What the version's form does not have is 0 in an answer, and no writer looks at it.
#[repr(C)]
#[derive(Clone, Copy)]
pub struct PacketServiceInfo {
    pub version: u16,
    pub nw_error: u32,
    pub packet_service_state: u32,
    pub highest_available_data_class: u32,
    pub current_data_class: u32,
    pub frequency_range: u32,
    pub uplink_speed: u64,
    pub downlink_speed: u64,
}

#[repr(C)]
#[derive(Clone, Copy)]
pub struct PacketServiceAnswer {
    pub refusal: RefusalInfo,
    pub info: PacketServiceInfo,
}

impl From<Result<PacketService, Refusal>> for PacketServiceAnswer {
    #[tactic(auto, unfolding(crate::specs::Packets::answer_of))]
    fn from(read: Result<PacketService, Refusal>) -> PacketServiceAnswer
        ensures { result ≡ answer_of read }
    {
        match read {
            Ok(fields) => PacketServiceAnswer {
                refusal: no_refusal(),
                info: PacketServiceInfo::from(fields),
            },
            Err(refusal) => PacketServiceAnswer {
                refusal: RefusalInfo::from(refusal),
                info: no_info(),
            },
        }
    }
}

impl From<PacketService> for PacketServiceInfo {
    #[tactic(auto, unfolding(crate::specs::Packets::info_of))]
    fn from(fields: PacketService) -> PacketServiceInfo
        ensures { result ≡ info_of fields }
    {
        let (highest, current, range) = match fields.form {
            PacketForm::V1 {
                highest_available_data_class,
            } => (highest_available_data_class, 0, 0),
            PacketForm::V2 {
                current_data_class,
                frequency_range,
            } => (0, current_data_class, frequency_range),
        };
        PacketServiceInfo {
            version: number_of(version_of(fields)),
            nw_error: fields.nw_error,
            packet_service_state: fields.packet_service_state,
            highest_available_data_class: highest,
            current_data_class: current,
            frequency_range: range,
            uplink_speed: fields.uplink_speed,
            downlink_speed: fields.downlink_speed,
        }
    }
}

// The record of a version; the number in `info` is not looked at.
#[tactic(auto, unfolding(crate::specs::Packets::record_of))]
pub fn record_of(version: Version, info: PacketServiceInfo) -> PacketService
    ensures { result ≡ record_of version info }
{
    let form = match version {
        Version::V1 => PacketForm::V1 {
            highest_available_data_class: info.highest_available_data_class,
        },
        Version::V2 => PacketForm::V2 {
            current_data_class: info.current_data_class,
            frequency_range: info.frequency_range,
        },
    };
    PacketService {
        nw_error: info.nw_error,
        packet_service_state: info.packet_service_state,
        uplink_speed: info.uplink_speed,
        downlink_speed: info.downlink_speed,
        form,
    }
}

fn no_info() -> PacketServiceInfo
    ensures { result ≡ no_info }
{
    PacketServiceInfo {
        version: 0,
        nw_error: 0,
        packet_service_state: 0,
        highest_available_data_class: 0,
        current_data_class: 0,
        frequency_range: 0,
        uplink_speed: 0,
        downlink_speed: 0,
    }
}
