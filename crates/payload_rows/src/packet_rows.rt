// The rows of a PACKET_SERVICE payload.
ghost use Rattle.packet_service.specs.PacketService.{read_of};
ghost use Rattle.rows.specs.Rows.{Put};
ghost use Rattle.payload_rows.specs.Packets.{speed_rows, packet_rows, packet_text};

use packet_service::{PacketForm, PacketService};
use protocol::Version;
use rows::{put_refused, put_row, put_text};

#[tactic(auto, unfolding(crate::specs::Packets::packet_text))]
pub fn put(version: Version, payload: &[u8], out: &mut [u8], at: usize) -> usize
    ensures { Put out.old at (packet_text (read_of version payload.now)) out.new result }
{
    match packet_service::read(version, payload) {
        Err(refusal) => put_refused(out, at, refusal),
        Ok(info) => {
            let error = put_text(out, at, b"field\tvalue\n");
            let state = put_row(out, error, b"NwError", info.nw_error as u64);
            let class = put_row(
                out,
                state,
                b"PacketServiceState",
                info.packet_service_state as u64,
            );
            put_rows(info, out, class)
        }
    }
}

// The rows from the data class on.
fn put_rows(info: PacketService, out: &mut [u8], at: usize) -> usize
    ensures { Put out.old at (packet_rows info) out.new result }
{
    match info.form {
        PacketForm::V1 {
            highest_available_data_class,
        } => {
            let speeds = put_row(
                out,
                at,
                b"HighestAvailableDataClass",
                highest_available_data_class as u64,
            );
            put_speeds(info, out, speeds)
        }
        PacketForm::V2 {
            current_data_class,
            frequency_range,
        } => {
            let speeds = put_row(out, at, b"CurrentDataClass", current_data_class as u64);
            let range = put_speeds(info, out, speeds);
            put_row(out, range, b"FrequencyRange", frequency_range as u64)
        }
    }
}

fn put_speeds(info: PacketService, out: &mut [u8], at: usize) -> usize
    ensures { Put out.old at (speed_rows info) out.new result }
{
    let downlink = put_row(out, at, b"UplinkSpeed", info.uplink_speed);
    put_row(out, downlink, b"DownlinkSpeed", info.downlink_speed)
}
