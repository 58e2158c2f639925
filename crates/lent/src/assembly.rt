// The assembly in 4,144 bytes: how far the pending message has come in 48, then the 4,096 of its
// buffer. All zero is the empty assembly.
ghost use Rattle.std.specs.Prelude.{◌≡◌, true, not, ◌+◌, ◌≤◌, ◌<◌, ltb, length, drop, replicate};
ghost use Rattle.std.proofs.lemmas.List.Edits.{sets};
ghost use Rattle.wire.specs.Numbers.{u32_at, digits};
ghost use Rattle.wire.specs.Output.{over};
ghost use Rattle.protocol.specs.Refusal.{output_too_small};
ghost use Rattle.protocol.specs.Service.{id_at};
ghost use Rattle.protocol.specs.Verdict.{fault_if};
ghost use Rattle.assembler.specs.Assembly.{assembly_of, grown};
ghost use Rattle.lent_progress.specs.LentProgress.{is_none, stray_word, above_carried, pending_rules, progress_verdict};
ghost use Rattle.lent.specs.LentAssembly.{assembly_size, buffer_in, assembly_in, NextPiece, Amid, GoesOn, held, message_in, progress_in, message_bytes, count_bytes, progress_bytes, changed_in, emptied, kept_of, feed_in, receive_in};

use assembler::door::{Received, show_fed, show_whole};
use assembler::{Answer, Progress, clear, feed_lent};
use lent_progress::{
    GATHERED, INFORMATION_LENGTH, MESSAGE_TYPE, NEXT, TOTAL, WORD, is_stray_word, judge_progress,
};
use message::{MOST_FRAGMENTS, MOST_TRANSFER, MessageHeader, is_whole_piece};
use protocol::message_type::is_fragmented;
use protocol::service::{ServiceId, put_id};
use protocol::{MOST_INFORMATION, Reason, Refusal, Verdict, refuse_if};
use wire::{put_bytes, put_u32, u32_at};

// How many bytes an assembly takes.
pub const ASSEMBLY_SIZE: usize = 4144;

const TRANSACTION: usize = 4;

const SERVICE: usize = 8;

const CID: usize = 24;

const BUFFER: usize = 48;

// The verdict on the room for an assembly, which is then empty.
#[tactic(auto, unfolding(crate::specs::LentAssembly::emptied, crate::specs::LentAssembly::cleared, protocol::specs::Verdict::fault_if))]
pub fn empty(memory: &mut [u8]) -> Verdict
    ensures value { result ≡ (emptied memory.old).verdict }
    ensures memory_after { memory.new ≡ (emptied memory.old).memory }
{
    judge_room(memory.len())?;
    wipe(memory, ASSEMBLY_SIZE);
    Ok(())
}

// Zeros at the front of memory; without the room for so many it stays as it was.
pub fn wipe(memory: &mut [u8], size: usize)
    ensures filled { size ≤ length memory.old → memory.new ≡ over (replicate size 0) memory.old }
    ensures kept { length memory.old < size → memory.new ≡ memory.old }
{
    if size <= memory.len() {
        clear(&mut memory[..size]);
    }
}

// The verdict on the room for an assembly.
#[tactic(auto, unfolding(protocol::specs::Verdict::fault_if))]
fn judge_room(size: usize) -> Verdict
    ensures { result ≡ fault_if (ltb size assembly_size) output_too_small assembly_size }
{
    refuse_if(size < ASSEMBLY_SIZE, Reason::OutputTooSmall, ASSEMBLY_SIZE)
}

// Takes any received piece. Only a fragment is fed to the assembly in the memory.
#[tactic(auto, using(crate::proofs::GoingOn::no_room, crate::proofs::GoingOn::received_on), unfolding(wire::specs::Output::over, protocol::specs::Verdict::fault_if))]
pub fn receive(memory: &mut [u8], piece: &[u8], out: &mut [u8]) -> Result<Received, Refusal>
    ensures value { result ≡ (receive_in memory.old piece.now (length out.old)).received }
    ensures memory_after { memory.new ≡ (receive_in memory.old piece.now (length out.old)).memory }
    ensures out_after { out.new ≡ over (receive_in memory.old piece.now (length out.old)).information out.old }
{
    judge_room(memory.len())?;
    if goes_on_in(memory, piece) {
        go_on(memory, piece);
        return Ok(Received::Pending {
            message_type: u32_at(piece, 0),
            transaction: u32_at(piece, 8),
            dropped: false,
        });
    }
    anew(receive_judged(memory, piece, out))
}

// The same answer, made of its parts. An answer that a call leaves in memory would have the one above go
// through memory too, and wait for it.
fn anew(received: Result<Received, Refusal>) -> Result<Received, Refusal>
    ensures { result ≡ received }
{
    Ok(match received? {
        Received::Whole {
            message_type,
            transaction,
            word,
        } => Received::Whole {
            message_type,
            transaction,
            word,
        },
        Received::Pending {
            message_type,
            transaction,
            dropped,
        } => Received::Pending {
            message_type,
            transaction,
            dropped,
        },
        Received::Complete {
            message,
            length,
            dropped,
        } => Received::Complete {
            message,
            length,
            dropped,
        },
    })
}

// The same with every piece judged rule by rule. `receive` is compiled into its caller as long as it has
// one; others call this one.
#[tactic(auto, unfolding(crate::specs::LentAssembly::receive_in, wire::specs::Output::over, protocol::specs::Verdict::fault_if))]
pub fn receive_judged(memory: &mut [u8], piece: &[u8], out: &mut [u8]) -> Result<Received, Refusal>
    ensures value { result ≡ (receive_in memory.old piece.now (length out.old)).received }
    ensures memory_after { memory.new ≡ (receive_in memory.old piece.now (length out.old)).memory }
    ensures out_after { out.new ≡ over (receive_in memory.old piece.now (length out.old)).information out.old }
{
    judge_room(memory.len())?;
    if is_whole_piece(piece) {
        return show_whole(piece);
    }
    show_fed(piece, feed(memory, piece, out))
}

// Memory that has the room for an assembly.
#[tactic(auto, using(crate::proofs::Memory::cleared_zeros), unfolding(crate::specs::LentAssembly::feed_in, wire::specs::Output::over))]
fn feed(memory: &mut [u8], piece: &[u8], out: &mut [u8]) -> Result<Answer, Refusal>
    requires { 4144 ≤ length memory.old }
    ensures value { result ≡ (feed_in memory.old piece.now (length out.old)).answer }
    ensures memory_after { memory.new ≡ (feed_in memory.old piece.now (length out.old)).memory }
    ensures out_after { out.new ≡ over (feed_in memory.old piece.now (length out.old)).information out.old }
{
    let progress = progress_at(memory);
    if let Err(refusal) = judge_progress(progress) {
        wipe(memory, ASSEMBLY_SIZE);
        return Err(refusal);
    }
    feed_whole(progress, memory, piece, out)
}

// Whether the piece is a later fragment with which the message goes on: most pieces are, and for them
// this tells at once what the judges of memory and piece would. Numbers that it doesn't test are not read.
fn goes_on_in(memory: &[u8], piece: &[u8]) -> bool
    requires { 4144 ≤ length memory.now }
    ensures { result ≡ true → GoesOn (progress_in memory.now) piece.now }
{
    let progress = progress_at(memory);
    goes_on(progress, piece)
}

fn goes_on(progress: Progress, piece: &[u8]) -> bool
    ensures { result ≡ true → GoesOn progress piece.now }
{
    is_next(progress, piece)
        && is_amid(progress)
        && progress.gathered as usize + (piece.len() - 20) <= progress.information_length as usize
}

// Whether the piece is a fragment with the header that the message waits for.
fn is_next(progress: Progress, piece: &[u8]) -> bool
    ensures { result ≡ true → NextPiece progress piece.now }
{
    let n = piece.len();
    20 <= n
        && n <= MOST_TRANSFER
        && u32_at(piece, 4) as usize == n
        && u32_at(piece, 0) == progress.message.message_type
        && u32_at(piece, 8) == progress.message.transaction
        && u32_at(piece, 12) == progress.total
        && u32_at(piece, 16) == progress.next
}

// Whether two fragments or more of a message came, and two or more are still to come.
fn is_amid(progress: Progress) -> bool
    ensures { result ≡ true → Amid progress }
{
    is_fragmented(progress.message.message_type)
        && !is_stray_word(progress.message)
        && progress.total <= MOST_FRAGMENTS
        && 2 <= progress.next
        && progress.next < progress.total
        && 2 <= progress.total - progress.next
        && progress.information_length as usize <= MOST_INFORMATION
}

// The piece's information joins the message.
fn go_on(memory: &mut [u8], piece: &[u8])
    requires room { 4144 ≤ length memory.old }
    requires piece { GoesOn (progress_in memory.old) piece.now }
    ensures { memory.new ≡ held (grown (assembly_in memory.old) (drop 20 piece.now)) memory.old }
{
    let progress = progress_at(memory);
    let gathered = progress.gathered as usize;
    let n = piece.len() - 20;
    put_bytes(&mut memory[BUFFER..ASSEMBLY_SIZE], gathered, &piece[20..]);
    let message = progress.message;
    let next = Progress {
        message,
        total: progress.total,
        next: progress.next + 1,
        information_length: progress.information_length,
        gathered: (gathered + n) as u32,
    };
    put_counts(memory, next);
}

// Memory that has the room and holds an assembly.
fn feed_whole(
    progress: Progress,
    memory: &mut [u8],
    piece: &[u8],
    out: &mut [u8],
) -> Result<Answer, Refusal>
    requires room { 4144 ≤ length memory.old }
    requires message_value { sets memory.old 0 (message_bytes progress.message) ≡ memory.old }
    ensures value { result ≡ (kept_of progress memory.old piece.now (length out.old)).answer }
    ensures memory_after { memory.new ≡ (kept_of progress memory.old piece.now (length out.old)).memory }
    ensures out_after { out.new ≡ over (kept_of progress memory.old piece.now (length out.old)).information out.old }
{
    let fed = feed_lent(progress, &mut memory[BUFFER..ASSEMBLY_SIZE], piece, out);
    let next = fed.progress;
    put_changed(memory, next);
    fed.answer
}

// The numbers after a feed: a later fragment that leaves its message pending changes the counts alone.
#[tactic(auto, unfolding(crate::specs::LentAssembly::changed_in))]
fn put_changed(memory: &mut [u8], progress: Progress)
    ensures { memory.new ≡ changed_in progress memory.old }
{
    if progress.next < 2 {
        put_progress(memory, progress);
    } else {
        put_counts(memory, progress);
    }
}

#[tactic(auto, using(crate::proofs::Memory::message_kept), unfolding(crate::specs::LentAssembly::progress_in))]
fn progress_at(memory: &[u8]) -> Progress
    requires { 4144 ≤ length memory.now }
    ensures value { result ≡ progress_in memory.now }
    ensures message_value { sets memory.now 0 (message_bytes result.message) ≡ memory.now }
{
    let message = message_at(memory);
    Progress {
        message,
        total: word_at(memory, TOTAL),
        next: word_at(memory, NEXT),
        information_length: word_at(memory, INFORMATION_LENGTH),
        gathered: word_at(memory, GATHERED),
    }
}

#[tactic(auto, unfolding(crate::specs::LentAssembly::message_in))]
fn message_at(memory: &[u8]) -> MessageHeader
    requires { 4144 ≤ length memory.now }
    ensures { result ≡ message_in memory.now }
{
    let service = service_at(memory);
    MessageHeader {
        message_type: word_at(memory, MESSAGE_TYPE),
        transaction: word_at(memory, TRANSACTION),
        service,
        cid: word_at(memory, CID),
        word: word_at(memory, WORD),
    }
}

#[tactic(auto, unfolding(protocol::specs::Service::id_at))]
fn service_at(memory: &[u8]) -> ServiceId
    requires { 4144 ≤ length memory.now }
    ensures { result ≡ id_at memory.now 8 }
{
    ServiceId {
        word0: word_at(memory, SERVICE),
        word1: word_at(memory, SERVICE + 4),
        word2: word_at(memory, SERVICE + 8),
        word3: word_at(memory, SERVICE + 12),
    }
}

// The number at a place within the memory.
#[tactic(auto, using(wire::proofs::Laws::four), unfolding(wire::specs::Numbers::u32_at))]
fn word_at(memory: &[u8], at: usize) -> u32
    requires { at + 4 ≤ length memory.now }
    ensures { result ≡ u32_at memory.now at }
{
    let a = memory[at] as u32;
    let b = memory[at + 1] as u32;
    let c = memory[at + 2] as u32;
    let d = memory[at + 3] as u32;
    a + 256 * (b + 256 * (c + 256 * d))
}

#[tactic(auto, using(wire::proofs::Laws::sets_then, crate::proofs::Memory::length_message), unfolding(crate::specs::LentAssembly::progress_bytes))]
fn put_progress(memory: &mut [u8], progress: Progress)
    ensures { memory.new ≡ sets memory.old 0 (progress_bytes progress) }
{
    let message = progress.message;
    put_message(memory, message);
    put_counts(memory, progress);
}

#[tactic(auto, unfolding(crate::specs::LentAssembly::message_bytes, protocol::specs::Service::id_bytes))]
fn put_message(memory: &mut [u8], message: MessageHeader)
    ensures { memory.new ≡ sets memory.old 0 (message_bytes message) }
{
    let service = message.service;
    put_u32(memory, MESSAGE_TYPE, message.message_type);
    put_u32(memory, TRANSACTION, message.transaction);
    put_id(memory, SERVICE, service);
    put_u32(memory, CID, message.cid);
    put_u32(memory, WORD, message.word);
}

#[tactic(auto, unfolding(crate::specs::LentAssembly::count_bytes))]
fn put_counts(memory: &mut [u8], progress: Progress)
    ensures { memory.new ≡ sets memory.old 32 (count_bytes progress) }
{
    put_u32(memory, TOTAL, progress.total);
    put_u32(memory, NEXT, progress.next);
    put_u32(memory, INFORMATION_LENGTH, progress.information_length);
    put_u32(memory, GATHERED, progress.gathered);
}
