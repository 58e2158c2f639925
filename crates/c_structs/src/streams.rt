// What a stream answers as plain members.
ghost use Rattle.std.specs.Prelude.{◌≡◌};
ghost use Rattle.c_structs.specs.Streams.{stream_info};

use crate::messages::{ReceiveInfo, nothing_received};
use stream::Said;

// A chunk fed: the piece that was taken, as far as one is whole, or a refusal of the stream's own; how
// many bytes were taken, refused or not; and whether the stream has ended.
#[repr(C)]
#[derive(Clone, Copy)]
pub struct StreamInfo {
    pub piece: ReceiveInfo,
    pub taken: usize,
    pub ended: u32,
}

#[tactic(auto, unfolding(crate::specs::Streams::stream_info))]
pub fn stream_info(said: Said, taken: usize) -> StreamInfo
    ensures { result ≡ stream_info said taken }
{
    match said {
        Said::Nothing => StreamInfo {
            piece: nothing_received(),
            taken,
            ended: 0,
        },
        Said::Piece(received) => StreamInfo {
            piece: ReceiveInfo::from(received),
            taken,
            ended: 0,
        },
        Said::Ended(refusal) => StreamInfo {
            piece: ReceiveInfo::from(Err(refusal)),
            taken,
            ended: 1,
        },
        Said::Refused(refusal) => StreamInfo {
            piece: ReceiveInfo::from(Err(refusal)),
            taken,
            ended: 0,
        },
    }
}
