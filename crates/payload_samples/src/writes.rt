// Payloads written: questions 2, 4, 6 and 8; those of 13, 44 and 46 stand with their readers.
ghost use Rattle.std.specs.Prelude.{◌≤◌};

use crate::pins::{pin_info_write, set_pin_write};
use crate::services::services_write;
use c_structs::WrittenAnswer;
use c_structs::packets::PacketServiceInfo;
use c_structs::registrations::RegistrationInfo;
use c_structs::signals::SignalStateInfo;
use culvertroost::packets::cvr_packet_service_write;
use culvertroost::registrations::cvr_registration_write;
use culvertroost::signals::cvr_signal_state_write;
use culvertroost::versions::cvr_version_info_write;
use sample_lines::answers::{Asked, few, half_at, short, word_at, written};
use signal_state::RsrpSnr;
use version_info::VersionInfo;
use wire::u64_at;

// The answer of a writer is its length.
pub fn write(question: u8, arguments: &[u8], input: &[u8], out: &mut [u8]) -> Asked {
    let answer = write_payload(question, arguments, input, out);
    let refusal = answer.refusal;
    let length = answer.length;
    let numbers = few(refusal.number, refusal.place, short(length), 0, 0);
    written(numbers, length)
}

fn write_payload(question: u8, arguments: &[u8], input: &[u8], out: &mut [u8]) -> WrittenAnswer {
    match question {
        2 => version_write(arguments, out),
        4 => packet_write(arguments, out),
        6 => registration_write(arguments, input, out),
        8 => signal_write(arguments, out),
        44 => set_pin_write(arguments, input, out),
        46 => pin_info_write(arguments, out),
        _ => services_write(arguments, input, out),
    }
}

fn version_write(arguments: &[u8], out: &mut [u8]) -> WrittenAnswer {
    let info = VersionInfo {
        bcd_mbim_version: half_at(arguments, 2),
        bcd_mbim_extended_version: half_at(arguments, 3),
    };
    cvr_version_info_write(info, out)
}

fn packet_write(arguments: &[u8], out: &mut [u8]) -> WrittenAnswer {
    let info = PacketServiceInfo {
        version: half_at(arguments, 2),
        nw_error: word_at(arguments, 3),
        packet_service_state: word_at(arguments, 4),
        highest_available_data_class: word_at(arguments, 5),
        current_data_class: word_at(arguments, 6),
        frequency_range: word_at(arguments, 7),
        uplink_speed: u64_at(arguments, 32),
        downlink_speed: u64_at(arguments, 40),
    };
    cvr_packet_service_write(info, out)
}

// The three texts stand in the input one after another.
fn registration_write(arguments: &[u8], input: &[u8], out: &mut [u8]) -> WrittenAnswer {
    let n = input.len();
    let name = end_of(0, word_at(arguments, 10) as usize, n);
    let roaming = end_of(name, word_at(arguments, 11) as usize, n);
    let end = end_of(roaming, word_at(arguments, 12) as usize, n);
    let info = registration_info(arguments);
    cvr_registration_write(
        info,
        &input[..name],
        &input[name..roaming],
        &input[roaming..end],
        out,
    )
}

fn registration_info(arguments: &[u8]) -> RegistrationInfo {
    RegistrationInfo {
        version: half_at(arguments, 2),
        nw_error: word_at(arguments, 3),
        register_state: word_at(arguments, 4),
        register_mode: word_at(arguments, 5),
        available_data_class: word_at(arguments, 6),
        cellular_class: word_at(arguments, 7),
        registration_flag: word_at(arguments, 8),
        preferred_data_class: word_at(arguments, 9),
    }
}

// Where a text of a size ends that starts at a place of n bytes.
pub fn end_of(start: usize, size: usize, n: usize) -> usize
    requires { start ≤ n }
    ensures { (start ≤ result) × (result ≤ n) }
{
    start + size.min(n - start)
}

fn signal_write(arguments: &[u8], out: &mut [u8]) -> WrittenAnswer {
    let entries = entries_of(arguments);
    let info = SignalStateInfo {
        version: half_at(arguments, 2),
        rssi: word_at(arguments, 3),
        error_rate: word_at(arguments, 4),
        signal_strength_interval: word_at(arguments, 5),
        rssi_threshold: word_at(arguments, 6),
        error_rate_threshold: word_at(arguments, 7),
        count: word_at(arguments, 8),
        entries,
    };
    cvr_signal_state_write(info, out)
}

fn entries_of(arguments: &[u8]) -> [RsrpSnr; 16] {
    let first = entry_at(arguments, 0);
    let mut entries = [first; 16];
    for i in 1..16 {
        entries[i as usize] = entry_at(arguments, i);
    }
    entries
}

fn entry_at(arguments: &[u8], i: u32) -> RsrpSnr
    requires { i ≤ 15 }
{
    let place = 9 + 5 * i;
    RsrpSnr {
        rsrp: word_at(arguments, place),
        snr: word_at(arguments, place + 1),
        rsrp_threshold: word_at(arguments, place + 2),
        snr_threshold: word_at(arguments, place + 3),
        system_type: word_at(arguments, place + 4),
    }
}
