// The assembly, for C, in memory that the caller lends: the door for a received piece.
ghost use Rattle.std.specs.Prelude.{◌≡◌, length};
ghost use Rattle.wire.specs.Output.{over};
ghost use Rattle.lent.specs.LentAssembly.{emptied, receive_in};
ghost use Rattle.c_structs.specs.Answers.{refusal_of};
ghost use Rattle.c_structs.specs.Messages.{receive_info};

use c_structs::RefusalInfo;
use c_structs::messages::ReceiveInfo;
use lent::assembly::{empty, receive};

pub fn cvr_assembly_empty(memory: &mut [u8]) -> RefusalInfo
    ensures value { result ≡ refusal_of (emptied memory.old).verdict }
    ensures memory_after { memory.new ≡ (emptied memory.old).memory }
{
    RefusalInfo::from(empty(memory))
}

pub fn cvr_receive(memory: &mut [u8], piece: &[u8], out: &mut [u8]) -> ReceiveInfo
    ensures value { result ≡ receive_info (receive_in memory.old piece.now (length out.old)).received }
    ensures memory_after { memory.new ≡ (receive_in memory.old piece.now (length out.old)).memory }
    ensures out_after { out.new ≡ over (receive_in memory.old piece.now (length out.old)).information out.old }
{
    ReceiveInfo::from(receive(memory, piece, out))
}
