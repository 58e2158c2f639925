// PACKET_SERVICE, for C. The number of the version is judged before anything else.
ghost use Rattle.std.specs.Prelude.{◌≡◌};
ghost use Rattle.c_structs.specs.Answers.{written_answer};
ghost use Rattle.c_structs.specs.Packets.{answer_of};
ghost use Rattle.culvertroost.specs.Packets.{read_at, write_at};

use c_structs::WrittenAnswer;
use c_structs::packets::{PacketServiceAnswer, PacketServiceInfo, record_of};
use handshake::version_at;
use packet_service::{PacketService, read, write};
use protocol::{Refusal, Written};

pub fn cvr_packet_service_read(version: u16, payload: &[u8]) -> PacketServiceAnswer
    ensures { result ≡ answer_of (read_at version payload.now) }
{
    PacketServiceAnswer::from(read_at(version, payload))
}

fn read_at(version: u16, payload: &[u8]) -> Result<PacketService, Refusal>
    ensures { result ≡ read_at version payload.now }
{
    let version = version_at(version)?;
    read(version, payload)
}

pub fn cvr_packet_service_write(info: PacketServiceInfo, out: &mut [u8]) -> WrittenAnswer
    ensures value { result ≡ written_answer (write_at info out.old).answer }
    ensures out_after { out.new ≡ (write_at info out.old).output }
{
    WrittenAnswer::from(write_at(info, out))
}

#[tactic(auto, unfolding(protocol::specs::Verdict::given))]
fn write_at(info: PacketServiceInfo, out: &mut [u8]) -> Written
    ensures value { result ≡ (write_at info out.old).answer }
    ensures out_after { out.new ≡ (write_at info out.old).output }
{
    let version = version_at(info.version)?;
    write(record_of(version, info), out)
}
