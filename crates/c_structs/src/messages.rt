// Answers about messages as plain members.
ghost use Rattle.std.specs.Prelude.{◌≡◌};
ghost use Rattle.c_structs.specs.Messages.{kind_number, whole_info, cut_info, kind_info, head_of, nothing_received, receive_info};

use crate::{RefusalInfo, no_refusal};
use assembler::door::Received;
use cutter::Fragments;
use message::{MessageHeader, Whole};
use protocol::Refusal;
use protocol::service::{Kind, ServiceId};

// A whole message.
#[repr(C)]
#[derive(Clone, Copy)]
pub struct WholeInfo {
    pub refusal: RefusalInfo,
    pub message_type: u32,
    pub transaction: u32,
    pub word: u32,
}

// A message cut: how many fragments, and their length together.
#[repr(C)]
#[derive(Clone, Copy)]
pub struct CutInfo {
    pub refusal: RefusalInfo,
    pub count: u32,
    pub length: usize,
}

// Which payload a message shows.
#[repr(C)]
#[derive(Clone, Copy)]
pub struct KindInfo {
    pub refusal: RefusalInfo,
    pub kind: u32,
}

// A piece received: 1 a whole message, 2 a fragment before others, 3 the last fragment of a message with
// so much information. What is not known yet of a message is 0.
#[repr(C)]
#[derive(Clone, Copy)]
pub struct ReceiveInfo {
    pub refusal: RefusalInfo,
    pub received: u32,
    pub dropped: u32,
    pub message: MessageHeader,
    pub length: usize,
}

impl From<Result<Whole, Refusal>> for WholeInfo {
    #[tactic(auto, unfolding(crate::specs::Messages::whole_info))]
    fn from(whole: Result<Whole, Refusal>) -> WholeInfo
        ensures { result ≡ whole_info whole }
    {
        match whole {
            Ok(message) => WholeInfo {
                refusal: no_refusal(),
                message_type: message.message_type,
                transaction: message.transaction,
                word: message.word,
            },
            Err(refusal) => WholeInfo {
                refusal: RefusalInfo::from(refusal),
                message_type: 0,
                transaction: 0,
                word: 0,
            },
        }
    }
}

impl From<Result<Fragments, Refusal>> for CutInfo {
    #[tactic(auto, unfolding(crate::specs::Messages::cut_info))]
    fn from(cutting: Result<Fragments, Refusal>) -> CutInfo
        ensures { result ≡ cut_info cutting }
    {
        match cutting {
            Ok(fragments) => CutInfo {
                refusal: no_refusal(),
                count: fragments.count,
                length: fragments.length,
            },
            Err(refusal) => CutInfo {
                refusal: RefusalInfo::from(refusal),
                count: 0,
                length: 0,
            },
        }
    }
}

impl From<Result<Option<Kind>, Refusal>> for KindInfo {
    #[tactic(auto, unfolding(crate::specs::Messages::kind_info))]
    fn from(shown: Result<Option<Kind>, Refusal>) -> KindInfo
        ensures { result ≡ kind_info shown }
    {
        match shown {
            Ok(Some(kind)) => KindInfo {
                refusal: no_refusal(),
                kind: kind_number(kind),
            },
            Ok(None) => KindInfo {
                refusal: no_refusal(),
                kind: 0,
            },
            Err(refusal) => KindInfo {
                refusal: RefusalInfo::from(refusal),
                kind: 0,
            },
        }
    }
}

impl From<Result<Received, Refusal>> for ReceiveInfo {
    #[tactic(auto, unfolding(crate::specs::Messages::receive_info))]
    fn from(received: Result<Received, Refusal>) -> ReceiveInfo
        ensures { result ≡ receive_info received }
    {
        match received {
            Ok(received) => ReceiveInfo::from(received),
            Err(refusal) => ReceiveInfo {
                refusal: RefusalInfo::from(refusal),
                received: 0,
                dropped: 0,
                message: head_of(0, 0, 0),
                length: 0,
            },
        }
    }
}

impl From<Received> for ReceiveInfo {
    #[tactic(auto, unfolding(crate::specs::Messages::receive_info))]
    fn from(received: Received) -> ReceiveInfo
        ensures { result ≡ receive_info (Ok received) }
    {
        let refusal = no_refusal();
        match received {
            Received::Whole {
                message_type,
                transaction,
                word,
            } => ReceiveInfo {
                refusal,
                received: 1,
                dropped: 0,
                message: head_of(message_type, transaction, word),
                length: 0,
            },
            Received::Pending {
                message_type,
                transaction,
                dropped,
            } => ReceiveInfo {
                refusal,
                received: 2,
                dropped: u32::from(dropped),
                message: head_of(message_type, transaction, 0),
                length: 0,
            },
            Received::Complete {
                message,
                length,
                dropped,
            } => ReceiveInfo {
                refusal,
                received: 3,
                dropped: u32::from(dropped),
                message,
                length,
            },
        }
    }
}

// No piece was taken.
pub fn nothing_received() -> ReceiveInfo
    ensures { result ≡ nothing_received }
{
    ReceiveInfo {
        refusal: no_refusal(),
        received: 0,
        dropped: 0,
        message: head_of(0, 0, 0),
        length: 0,
    }
}

// The numbers of the kinds; 0 is none. Kind and u32 are of other crates, so that no From can stand here.
pub fn kind_number(kind: Kind) -> u32
    ensures { result ≡ kind_number kind }
{
    match kind {
        Kind::RegisterState => 1,
        Kind::PacketService => 2,
        Kind::SignalState => 3,
        Kind::DeviceServices => 4,
        Kind::VersionInfo => 5,
        Kind::SetPin => 6,
        Kind::PinInfo => 7,
    }
}

// A message of which no more is known.
fn head_of(message_type: u32, transaction: u32, word: u32) -> MessageHeader
    ensures { result ≡ head_of message_type transaction word }
{
    let service = ServiceId {
        word0: 0,
        word1: 0,
        word2: 0,
        word3: 0,
    };
    MessageHeader {
        message_type,
        transaction,
        service,
        cid: 0,
        word,
    }
}
