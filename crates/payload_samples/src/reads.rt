// Payloads read: questions 1, 3, 5, 7 and 9, and 36 to 38 by the reader's choice.
use c_structs::registrations::RegistrationAnswer;
use c_structs::services::DeviceServicesAnswer;
use c_structs::signals::SignalStateAnswer;
use culvertroost::packets::cvr_packet_service_read;
use culvertroost::registrations::{cvr_registration_read, cvr_registration_read_with};
use culvertroost::services::{cvr_device_services_read, cvr_device_services_read_with};
use culvertroost::signals::{cvr_signal_state_read, cvr_signal_state_read_with};
use culvertroost::versions::cvr_version_info_read;
use sample_lines::answers::{Asked, few, half_at, no_question, plain, short, word_at};
use signal_state::RsrpSnr;

pub fn read(question: u8, arguments: &[u8], input: &[u8], list: &mut [u32; 1024]) -> Asked {
    let version = half_at(arguments, 1);
    let choice = word_at(arguments, 2);
    match question {
        1 => version_read(input),
        3 => packet_read(version, input),
        5 => registration(cvr_registration_read(version, input)),
        7 => signal(cvr_signal_state_read(version, input), list),
        9 => services(cvr_device_services_read(input)),
        36 => registration(cvr_registration_read_with(version, choice, input)),
        37 => signal(cvr_signal_state_read_with(version, choice, input), list),
        38 => services(cvr_device_services_read_with(word_at(arguments, 1), input)),
        _ => no_question(),
    }
}

fn version_read(input: &[u8]) -> Asked {
    let answer = cvr_version_info_read(input);
    let refusal = answer.refusal;
    let info = answer.info;
    let mbim = info.bcd_mbim_version as u32;
    let extension = info.bcd_mbim_extended_version as u32;
    plain(few(refusal.number, refusal.place, mbim, extension, 0))
}

fn packet_read(version: u16, input: &[u8]) -> Asked {
    let answer = cvr_packet_service_read(version, input);
    let refusal = answer.refusal;
    let info = answer.info;
    plain([
        refusal.number,
        short(refusal.place),
        info.version as u32,
        info.nw_error,
        info.packet_service_state,
        info.highest_available_data_class,
        info.current_data_class,
        info.frequency_range,
        low(info.uplink_speed),
        high(info.uplink_speed),
        low(info.downlink_speed),
        high(info.downlink_speed),
        0,
        0,
        0,
        0,
    ])
}

fn registration(answer: RegistrationAnswer) -> Asked {
    let refusal = answer.refusal;
    let info = answer.info;
    let texts = answer.texts;
    let id = texts.provider_id;
    let name = texts.provider_name;
    let roaming = texts.roaming_text;
    plain([
        refusal.number,
        short(refusal.place),
        info.version as u32,
        info.nw_error,
        info.register_state,
        info.register_mode,
        info.available_data_class,
        info.cellular_class,
        info.registration_flag,
        info.preferred_data_class,
        id.start,
        id.length,
        name.start,
        name.length,
        roaming.start,
        roaming.length,
    ])
}

fn signal(answer: SignalStateAnswer, list: &mut [u32; 1024]) -> Asked {
    let refusal = answer.refusal;
    let info = answer.info;
    let entries = info.entries;
    put_entries(list, entries);
    Asked {
        numbers: [
            refusal.number,
            short(refusal.place),
            info.version as u32,
            info.rssi,
            info.error_rate,
            info.signal_strength_interval,
            info.rssi_threshold,
            info.error_rate_threshold,
            info.count,
            0,
            0,
            0,
            0,
            0,
            0,
            0,
        ],
        count: 9,
        written: 0,
        listed: 80,
    }
}

// All 16 entries, 5 numbers each.
fn put_entries(list: &mut [u32; 1024], entries: [RsrpSnr; 16]) {
    for i in 0..16 {
        let entry = entries[i];
        list[5 * i] = entry.rsrp;
        list[5 * i + 1] = entry.snr;
        list[5 * i + 2] = entry.rsrp_threshold;
        list[5 * i + 3] = entry.snr_threshold;
        list[5 * i + 4] = entry.system_type;
    }
}

fn services(answer: DeviceServicesAnswer) -> Asked {
    let refusal = answer.refusal;
    let info = answer.info;
    let count = info.device_services_count;
    plain(few(
        refusal.number,
        refusal.place,
        count,
        info.max_dss_sessions,
        0,
    ))
}

fn low(n: u64) -> u32 {
    (n % 4294967296) as u32
}

fn high(n: u64) -> u32 {
    (n / 4294967296) as u32
}
