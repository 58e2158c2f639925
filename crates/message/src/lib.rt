// Headers of messages, judged by themselves: of a whole message, which is also written here, and of
// one fragment. No fragment is put together here, and no payload is looked at.
#![tactic(auto)]

ghost use Rattle.std.specs.Prelude.{◌≡◌, ◌≤◌};
ghost use Rattle.std.proofs.lemmas.List.Edits.{sets};
ghost use Rattle.message.specs.Message.{whole_length, whole_word_at, whole_of, head_bytes, whole_bytes, write_whole_of, is_whole_piece, length_place, first_length, wrong_total, header_of, word_at, message_at, wrong_word, wrong_amount, first_header_of, opened_by, fragment_of};

use protocol::message_type::{CLOSE, COMMAND, INDICATE_STATUS, is_fragmented, is_whole};
use protocol::service::{ServiceId, id_at};
use protocol::{MOST_INFORMATION, Reason, Refusal, Written, refuse_if};
use wire::{put_u32, u32_at};

// The most bytes of a fragment, and the most fragments of a message.
pub const MOST_TRANSFER: usize = 4096;

pub const MOST_FRAGMENTS: u32 = 128;

// A whole message. The word is its one number: OPEN's transfer size, a reply's status, an error's
// code; CLOSE has none and shows 0.
#[derive(Clone, Copy)]
pub struct Whole {
    pub message_type: u32,
    pub transaction: u32,
    pub word: u32,
}

// What every fragment's header says.
#[derive(Clone, Copy)]
pub struct FragmentHeader {
    pub message_type: u32,
    pub transaction: u32,
    pub total: u32,
    pub number: u32,
}

// A fragmented message without its information. The word is a command's type or a reply's status;
// an indication has none and shows 0. A header that a caller makes may have any type: it is a number, and
// the cutter and `payload_of` refuse those that are none.
#[repr(C)]
#[derive(Clone, Copy)]
pub struct MessageHeader {
    pub message_type: u32,
    pub transaction: u32,
    pub service: ServiceId,
    pub cid: u32,
    pub word: u32,
}

// What a first fragment's header says: the message, and how much information it declares.
#[derive(Clone, Copy)]
pub struct FirstHeader {
    pub message: MessageHeader,
    pub information_length: u32,
}

// One fragment: the first of its message, or a later one.
#[derive(Clone, Copy)]
pub enum Fragment {
    First {
        header: FragmentHeader,
        first: FirstHeader,
    },
    Later(FragmentHeader),
}

#[tactic(auto, unfolding(crate::specs::Message::whole_of, crate::specs::Message::whole_by, protocol::specs::Verdict::judge_from, protocol::specs::Verdict::first_of, protocol::specs::Verdict::fault_if))]
pub fn judge_whole(s: &[u8]) -> Result<Whole, Refusal>
    ensures { result ≡ whole_of s.now }
{
    let n = s.len();
    let message_type = u32_at(s, 0);
    refuse_if(n < 12, Reason::TooShort, n)?;
    refuse_if(u32_at(s, 4) as usize != n, Reason::WrongLength, 4)?;
    refuse_if(!is_whole(message_type), Reason::Unknown, 0)?;
    refuse_if(
        whole_length(message_type) as usize != n,
        Reason::WrongLength,
        4,
    )?;
    Ok(Whole {
        message_type,
        transaction: u32_at(s, 8),
        word: whole_word_at(message_type, s),
    })
}

// Writes a whole message: its type, transaction and word. CLOSE has no word, and takes any.
#[tactic(auto, using(wire::proofs::Laws::sets_over, crate::proofs::Written::length_whole_bytes), unfolding(crate::specs::Message::write_whole_of, protocol::specs::Verdict::writing, protocol::specs::Verdict::with_room, protocol::specs::Verdict::given, protocol::specs::Verdict::judge_from, protocol::specs::Verdict::first_of, protocol::specs::Verdict::fault_if))]
pub fn write_whole(message_type: u32, transaction: u32, word: u32, out: &mut [u8]) -> Written
    ensures value { result ≡ (write_whole_of message_type transaction word out.old).answer }
    ensures out_after { out.new ≡ (write_whole_of message_type transaction word out.old).output }
{
    let n = whole_length(message_type) as usize;
    refuse_if(!is_whole(message_type), Reason::Unknown, 0)?;
    refuse_if(out.len() < n, Reason::OutputTooSmall, n)?;
    put_whole(message_type, transaction, word, out);
    Ok(n)
}

// Whether a piece is a whole message's: by its type, as soon as that is there.
#[tactic(auto, unfolding(crate::specs::Message::is_whole_piece))]
pub fn is_whole_piece(s: &[u8]) -> bool
    ensures { result ≡ is_whole_piece s.now }
{
    4 <= s.len() && is_whole(u32_at(s, 0))
}

// One fragment, whichever of its message it is.
#[tactic(auto, unfolding(crate::specs::Message::fragment_of, crate::specs::Message::fragment_by, crate::specs::Message::opened_by))]
pub fn judge_fragment(s: &[u8]) -> Result<Fragment, Refusal>
    ensures { result ≡ fragment_of s.now }
{
    let header = judge_header(s)?;
    if header.number == 0 {
        let first = judge_first(s)?;
        return Ok(Fragment::First { header, first });
    }
    Ok(Fragment::Later(header))
}

// The header of every fragment. The length is judged first, so that the reads after it need no test
// of their own.
#[tactic(auto, unfolding(crate::specs::Message::header_of, crate::specs::Message::header_by, protocol::specs::Verdict::judge_from, protocol::specs::Verdict::first_of, protocol::specs::Verdict::fault_if))]
fn judge_header(s: &[u8]) -> Result<FragmentHeader, Refusal>
    ensures { result ≡ header_of s.now }
{
    let n = s.len();
    refuse_if(n < 20, Reason::TooShort, n)?;
    let message_type = u32_at(s, 0);
    let total = u32_at(s, 12);
    let number = u32_at(s, 16);
    refuse_if(u32_at(s, 4) as usize != n, Reason::WrongLength, 4)?;
    refuse_if(MOST_TRANSFER < n, Reason::WrongTransferSize, 4)?;
    refuse_if(!is_fragmented(message_type), Reason::Unknown, 0)?;
    refuse_if(is_wrong_total(total), Reason::WrongFragment, 12)?;
    refuse_if(total <= number, Reason::WrongFragment, 16)?;
    Ok(FragmentHeader {
        message_type,
        transaction: u32_at(s, 8),
        total,
        number,
    })
}

// Judges what a first fragment has beside the header of every fragment.
#[tactic(auto, using(crate::proofs::Headers::place_most, crate::proofs::Headers::type_at), unfolding(crate::specs::Message::first_header_of, crate::specs::Message::first_by, protocol::specs::Verdict::judge_from, protocol::specs::Verdict::first_of, protocol::specs::Verdict::fault_if))]
fn judge_first(s: &[u8]) -> Result<FirstHeader, Refusal>
    ensures { result ≡ first_header_of s.now }
{
    let n = s.len();
    let message = message_at(s);
    let place = length_place(message.message_type);
    let information_length = u32_at(s, place);
    let declared = information_length as usize;
    let amount = n.saturating_sub(place + 4);
    let alone = u32_at(s, 12) == 1;
    refuse_if(n < place + 4, Reason::TooShort, n)?;
    refuse_if(is_wrong_word(message), Reason::OutsideTable, 40)?;
    refuse_if(MOST_INFORMATION < declared, Reason::TooLong, place)?;
    refuse_if(
        is_wrong_amount(alone, amount, declared),
        Reason::WrongLength,
        place,
    )?;
    Ok(FirstHeader {
        message,
        information_length,
    })
}

// Where a first fragment has its information length; the information follows it.
#[tactic(auto, unfolding(crate::specs::Message::length_place))]
pub fn length_place(message_type: u32) -> usize
    ensures { result ≡ length_place message_type }
{
    if message_type == INDICATE_STATUS {
        40
    } else {
        44
    }
}

// The bytes before a first fragment's information.
#[tactic(auto, using(crate::proofs::Headers::place_most))]
pub fn first_length(message_type: u32) -> usize
    ensures value { result ≡ first_length message_type }
    ensures bounds { (44 ≤ result) × (result ≤ 48) }
{
    length_place(message_type) + 4
}

// Whether a command's type is outside its table.
#[tactic(auto, unfolding(crate::specs::Message::wrong_word))]
pub fn is_wrong_word(message: MessageHeader) -> bool
    ensures { result ≡ wrong_word message }
{
    message.message_type == COMMAND && 1 < message.word
}

// Whether so much information is gathered that the message cannot have it.
#[tactic(auto, unfolding(crate::specs::Message::wrong_amount))]
pub fn is_wrong_amount(last: bool, gathered: usize, declared: usize) -> bool
    ensures { result ≡ wrong_amount last gathered declared }
{
    declared < gathered || (last && gathered != declared)
}

// How long a whole message of this type is.
#[tactic(auto, unfolding(crate::specs::Message::whole_length))]
pub fn whole_length(message_type: u32) -> u32
    ensures { result ≡ whole_length message_type }
{
    if message_type == CLOSE { 12 } else { 16 }
}

// The one number of a whole message; `word_at` is that of a fragmented one: two tables, of other types and places.
#[tactic(auto, unfolding(crate::specs::Message::whole_word_at))]
fn whole_word_at(message_type: u32, s: &[u8]) -> u32
    ensures { result ≡ whole_word_at message_type s.now }
{
    if message_type == CLOSE {
        0
    } else {
        u32_at(s, 12)
    }
}

#[tactic(auto, using(wire::proofs::Laws::sets_append), unfolding(crate::specs::Message::whole_bytes, crate::specs::Message::head_bytes))]
fn put_whole(message_type: u32, transaction: u32, word: u32, out: &mut [u8])
    ensures { out.new ≡ sets out.old 0 (whole_bytes message_type transaction word) }
{
    put_head(message_type, transaction, out);
    if message_type == CLOSE {
        return;
    }
    put_u32(out, 12, word);
}

#[tactic(auto, unfolding(crate::specs::Message::head_bytes))]
fn put_head(message_type: u32, transaction: u32, out: &mut [u8])
    ensures { out.new ≡ sets out.old 0 (head_bytes message_type transaction) }
{
    put_u32(out, 0, message_type);
    put_u32(out, 4, whole_length(message_type));
    put_u32(out, 8, transaction);
}

#[tactic(auto, unfolding(crate::specs::Message::wrong_total))]
fn is_wrong_total(total: u32) -> bool
    ensures { result ≡ wrong_total total }
{
    total == 0 || MOST_FRAGMENTS < total
}

#[tactic(auto, unfolding(crate::specs::Message::word_at))]
fn word_at(message_type: u32, s: &[u8]) -> u32
    ensures { result ≡ word_at message_type s.now }
{
    if message_type == INDICATE_STATUS {
        0
    } else {
        u32_at(s, 40)
    }
}

#[tactic(auto, unfolding(crate::specs::Message::message_at))]
fn message_at(s: &[u8]) -> MessageHeader
    ensures { result ≡ message_at s.now }
{
    let message_type = u32_at(s, 0);
    let service = id_at(s, 20);
    MessageHeader {
        message_type,
        transaction: u32_at(s, 8),
        service,
        cid: u32_at(s, 36),
        word: word_at(message_type, s),
    }
}
