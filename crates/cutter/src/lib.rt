// Cuts a message into fragments, all written one after another into the caller's output, and counts
// transactions. What the service, the CID, a reply's status and the information say is not looked at.
#![tactic(auto)]

ghost use Rattle.std.specs.Prelude.{◌≡◌, ◌+◌, ◌-◌, ◌^◌, ◌<◌, ◌≤◌, min, length, take, drop};
ghost use Rattle.std.proofs.lemmas.List.Edits.{sets};
ghost use Rattle.protocol.specs.Verdict.{judge};
ghost use Rattle.message.specs.Message.{first_length};
ghost use Rattle.cutter.specs.Cut.{wrong_size, wrong_transaction, message_rules, header_bytes, opening_bytes, fragment_bytes, first_bytes, later_fragments, later_count, joined, fitting_of, cut_of};
ghost use Rattle.cutter.specs.Transaction.{next_transaction};

use message::{MOST_TRANSFER, MessageHeader, first_length, is_wrong_word};
use protocol::message_type::{INDICATE_STATUS, is_fragmented};
use protocol::service::put_id;
use protocol::{MOST_INFORMATION, Reason, Refusal, Verdict, refuse_if};
use wire::{put_bytes, put_u32};

// The least transfer size; the largest is that of a fragment.
pub const LEAST_TRANSFER: usize = 64;

// What was cut: how many fragments stand at the front of the output, and their length together.
#[derive(Clone, Copy)]
pub struct Fragments {
    pub count: u32,
    pub length: usize,
}

#[tactic(auto, using(crate::proofs::Whole::rules_say), unfolding(crate::specs::Cut::cut_of, crate::specs::Cut::cut_after, crate::specs::Cut::cut_by, protocol::specs::Verdict::with_room, protocol::specs::Verdict::first_of))]
pub fn cut(
    message: MessageHeader,
    size: usize,
    information: &[u8],
    out: &mut [u8],
) -> Result<Fragments, Refusal>
    ensures value { result ≡ (cut_of message size information.now out.old).answer }
    ensures out_after { out.new ≡ (cut_of message size information.now out.old).output }
{
    judge_message(message, size, information.len())?;
    cut_fitting(message, size, information, out)
}

// The number after a command's: 0 is for indications.
#[tactic(auto, unfolding(crate::specs::Transaction::next_transaction))]
pub fn next_transaction(transaction: u32) -> u32
    ensures { result ≡ next_transaction transaction }
{
    transaction.wrapping_add(1).max(1)
}

#[tactic(auto, unfolding(protocol::specs::Verdict::judge_from, protocol::specs::Verdict::first_of, protocol::specs::Verdict::fault_if))]
fn judge_message(message: MessageHeader, size: usize, n: usize) -> Verdict
    ensures { result ≡ judge (message_rules message size n) }
{
    refuse_if(is_wrong_size(size), Reason::WrongTransferSize, 0)?;
    refuse_if(!is_fragmented(message.message_type), Reason::Unknown, 0)?;
    refuse_if(is_wrong_transaction(message), Reason::OutsideTable, 8)?;
    refuse_if(is_wrong_word(message), Reason::OutsideTable, 40)?;
    refuse_if(MOST_INFORMATION < n, Reason::TooLong, 0)
}

#[tactic(auto, unfolding(crate::specs::Cut::wrong_size))]
fn is_wrong_size(size: usize) -> bool
    ensures { result ≡ wrong_size size }
{
    size < LEAST_TRANSFER || MOST_TRANSFER < size
}

#[tactic(auto, unfolding(crate::specs::Cut::wrong_transaction))]
fn is_wrong_transaction(message: MessageHeader) -> bool
    ensures { result ≡ wrong_transaction message }
{
    if message.message_type == INDICATE_STATUS {
        message.transaction != 0
    } else {
        message.transaction == 0
    }
}

// A message that keeps its rules, cut where the output has room.
#[tactic(auto, using(crate::proofs::Whole::count_few, crate::proofs::Whole::whole_length), unfolding(crate::specs::Cut::cut_after, crate::specs::Cut::cut_by, protocol::specs::Verdict::with_room, protocol::specs::Verdict::first_of, protocol::specs::Verdict::fault_if))]
fn cut_fitting(
    message: MessageHeader,
    size: usize,
    information: &[u8],
    out: &mut [u8],
) -> Result<Fragments, Refusal>
    requires { (64 ≤ size) × (size ≤ 4096) × (length information.now ≤ 4096) }
    ensures value { result ≡ (fitting_of message size information.now out.old).answer }
    ensures out_after { out.new ≡ (fitting_of message size information.now out.old).output }
{
    let n = information.len();
    let head = first_length(message.message_type);
    let later = later_count(size - head, size - 20, n);
    let length = head + n + 20 * later;
    refuse_if(out.len() < length, Reason::OutputTooSmall, length)?;
    let count = (1 + later) as u32;
    let amount = n.min(size - head);
    put_first(message, count, information, amount, out);
    put_later(
        message,
        size - 20,
        count,
        information,
        amount,
        out,
        head + amount,
    );
    Ok(Fragments { count, length })
}

// How many fragments follow the first, where it carries up to `first` bytes and each other `each`.
#[tactic(auto, unfolding(crate::specs::Cut::later_count))]
fn later_count(first: usize, each: usize, n: usize) -> usize
    requires { (0 < each) × (each ≤ 4096) × (n ≤ 4096) }
    ensures { result ≡ later_count first each n }
{
    (n.saturating_sub(first) + (each - 1)) / each
}

#[tactic(auto, using(wire::proofs::Laws::part_filled, crate::proofs::Stored::length_header))]
fn put_header(message: MessageHeader, n: usize, total: u32, number: u32, out: &mut [u8], at: usize)
    requires { (at + 20 ≤ length out.old) × (n < 2 ^ 32) }
    ensures { out.new ≡ sets out.old at (header_bytes message n total number) }
{
    put_words(message, n, total, number, &mut out[at..at + 20]);
}

// The header of a fragment of n bytes. In a part of a length that the compiler knows, no store is tested.
#[tactic(auto, using(wire::proofs::Laws::sets_append), unfolding(crate::specs::Cut::header_bytes))]
fn put_words(message: MessageHeader, n: usize, total: u32, number: u32, out: &mut [u8])
    requires { n < 2 ^ 32 }
    ensures { out.new ≡ sets out.old 0 (header_bytes message n total number) }
{
    put_u32(out, 0, message.message_type);
    put_u32(out, 4, n as u32);
    put_u32(out, 8, message.transaction);
    put_u32(out, 12, total);
    put_u32(out, 16, number);
}

// The bytes of a fragment behind its header, in a part of their own length.
#[tactic(auto, using(wire::proofs::Laws::part_filled))]
fn put_body(body: &[u8], out: &mut [u8], at: usize)
    requires { at + length body.now ≤ length out.old }
    ensures { out.new ≡ sets out.old at body.now }
{
    let n = body.len();
    put_bytes(&mut out[at..at + n], 0, body);
}

// A later fragment, which carries `body`.
#[tactic(auto, using(wire::proofs::Laws::sets_append, crate::proofs::Stored::length_header), unfolding(crate::specs::Cut::fragment_bytes))]
fn put_fragment(
    message: MessageHeader,
    total: u32,
    number: u32,
    body: &[u8],
    out: &mut [u8],
    at: usize,
)
    requires { (at + (20 + length body.now) ≤ length out.old) × (length body.now ≤ 4096) }
    ensures { out.new ≡ sets out.old at (fragment_bytes message total number body.now) }
{
    put_header(message, 20 + body.len(), total, number, out, at);
    put_body(body, out, at + 20);
}

// What a first fragment has between the header of every fragment and the information.
#[tactic(auto, using(wire::proofs::Laws::sets_append), unfolding(crate::specs::Cut::opening_bytes, crate::specs::Cut::word_bytes, protocol::specs::Service::id_bytes))]
fn put_opening(message: MessageHeader, n: u32, out: &mut [u8])
    ensures { out.new ≡ sets out.old 20 (opening_bytes message n) }
{
    let service = message.service;
    put_id(out, 20, service);
    put_u32(out, 36, message.cid);
    if message.message_type == INDICATE_STATUS {
        put_u32(out, 40, n);
        return;
    }
    put_u32(out, 40, message.word);
    put_u32(out, 44, n);
}

// The first fragment, which carries the first `amount` bytes of the information.
fn put_first(message: MessageHeader, total: u32, information: &[u8], amount: usize, out: &mut [u8])
    requires { (amount ≤ length information.now) × (length information.now ≤ 4096) × (first_length message.message_type + amount ≤ length out.old) }
    ensures { out.new ≡ sets out.old 0 (first_bytes message total (length information.now) (take amount information.now)) }
{
    let head = first_length(message.message_type);
    put_header(message, head + amount, total, 0, out, 0);
    put_opening(message, information.len() as u32, out);
    put_body(&information[..amount], out, head);
}

// The fragments after the first.
fn put_later(
    message: MessageHeader,
    each: usize,
    total: u32,
    information: &[u8],
    from: usize,
    out: &mut [u8],
    at: usize,
)
    requires from_in_bounds { (from ≤ length information.now) × (each ≤ 4076) × (0 < total) × (total ≤ 128) × (at ≤ 4096) }
    requires information_in_bounds { at + length (joined (later_fragments message each total 1 (total - 1) (drop from information.now))) ≤ length out.old }
    ensures { out.new ≡ sets out.old at (joined (later_fragments message each total 1 (total - 1) (drop from information.now))) }
{
    let mut position = from;
    let mut end = at;
    for number in 1..total {
        let amount = (information.len() - position).min(each);
        let body = &information[position..position + amount];
        put_fragment(message, total, number, body, out, end);
        position = position + amount;
        end = end + 20 + amount;
    }
}
