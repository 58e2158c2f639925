// packets, exported to C: each function is culvertroost::packets's, with its contract.
ghost use Rattle.std.specs.Prelude.{◌≡◌};
ghost use Rattle.c_structs.specs.Answers.{written_answer};
ghost use Rattle.c_structs.specs.Packets.{answer_of};
ghost use Rattle.culvertroost.specs.Packets.{read_at, write_at};

use c_structs::WrittenAnswer;
use c_structs::packets::{PacketServiceAnswer, PacketServiceInfo};

#[unsafe(no_mangle)]
pub extern "C" fn cvr_packet_service_read(version: u16, payload: &[u8]) -> PacketServiceAnswer
    ensures { result ≡ answer_of (read_at version payload.now) }
{
    culvertroost::packets::cvr_packet_service_read(version, payload)
}

#[unsafe(no_mangle)]
pub extern "C" fn cvr_packet_service_write(info: PacketServiceInfo, out: &mut [u8]) -> WrittenAnswer
    ensures value { result ≡ written_answer (write_at info out.old).answer }
    ensures out_after { out.new ≡ (write_at info out.old).output }
{
    culvertroost::packets::cvr_packet_service_write(info, out)
}
