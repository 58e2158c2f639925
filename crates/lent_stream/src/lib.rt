// A stream in memory that the caller lends: 4,104 bytes of its own, how many bytes it holds, whether it
// ended and its piece buffer, and beside them the memory of its assembly. All zero is an empty stream.
// Memory that is too small, or that no calls can have left, is refused and stays as it was.
#![tactic(auto)]

ghost use Rattle.std.specs.Prelude.{◌≡◌, ◌<◌, false, cond, eqb, length, drop};
ghost use Rattle.std.proofs.lemmas.List.Edits.{sets};
ghost use Rattle.wire.specs.Numbers.{u32_at};
ghost use Rattle.wire.specs.Output.{over};
ghost use Rattle.protocol.specs.Verdict.{judge_from, judge};
ghost use Rattle.stream.specs.Stream.{ended_on};
ghost use Rattle.lent_stream.specs.LentStream.{room_rules, reset_in, feed_rules, ended_beside, is_unfinished, memory_door, ended_fed, state_bytes, fed_in, feed_in};
ghost use Rattle.protocol.specs.Verdict.{no_fault};

use lent::assembly::{ASSEMBLY_SIZE, empty, receive_judged, wipe};
use protocol::message_type::is_whole;
use protocol::{MOST_INFORMATION, Reason, Refusal, Verdict, refuse_if};
use stream::front::{Next, Ready, next_in, prepare};
use stream::{Said, State};
use wire::{put_u32, u32_at};

// How many bytes a stream takes beside its assembly.
pub const STREAM_SIZE: usize = 4104;

const HELD: usize = 0;

const ENDED: usize = 4;

const PIECE: usize = 8;

// A piece has at most 4,096 bytes, so an unfinished one fewer.
const MOST_HELD: usize = 4095;

// What a call answers, and how many bytes of the chunk it took: beside a refusal too, so that no `?` can
// pass one on here.
#[derive(Clone, Copy)]
pub struct FedLent {
    pub said: Said,
    pub taken: usize,
}

// The verdict on the room for a stream and its assembly, which are then empty.
#[tactic(auto, unfolding(crate::specs::LentStream::reset_in, lent::specs::LentAssembly::emptied, protocol::specs::Verdict::judge_from, protocol::specs::Verdict::first_of, protocol::specs::Verdict::fault_if))]
pub fn reset(memory: &mut [u8], assembly: &mut [u8]) -> Verdict
    ensures value { result ≡ (reset_in memory.old assembly.old).verdict }
    ensures memory_after { memory.new ≡ (reset_in memory.old assembly.old).memory }
    ensures assembly_after { assembly.new ≡ (reset_in memory.old assembly.old).assembly }
{
    judge_room(memory.len(), assembly.len())?;
    wipe(memory, STREAM_SIZE);
    empty(assembly)
}

// Feeds a chunk up to the first answer. A complete message's information goes to the front of `out`.
#[tactic(auto, unfolding(crate::specs::LentStream::feed_in, wire::specs::Output::over))]
pub fn feed(memory: &mut [u8], assembly: &mut [u8], chunk: &[u8], out: &mut [u8]) -> FedLent
    ensures value { result ≡ (feed_in memory.old assembly.old chunk.now (length out.old)).fed }
    ensures memory_after { memory.new ≡ (feed_in memory.old assembly.old chunk.now (length out.old)).memory }
    ensures assembly_after { assembly.new ≡ (feed_in memory.old assembly.old chunk.now (length out.old)).assembly }
    ensures out_after { out.new ≡ over (feed_in memory.old assembly.old chunk.now (length out.old)).information out.old }
{
    if let Err(refusal) = judge_memory(memory, assembly.len(), out.len()) {
        return FedLent {
            said: Said::Refused(refusal),
            taken: 0,
        };
    }
    if u32_at(memory, ENDED) == 1 {
        return ended_at(0);
    }
    feed_open(memory, assembly, chunk, out)
}

// Room for both memories.
#[tactic(auto, unfolding(protocol::specs::Verdict::judge_from, protocol::specs::Verdict::first_of, protocol::specs::Verdict::fault_if))]
fn judge_room(memory: usize, assembly: usize) -> Verdict
    ensures { result ≡ judge (room_rules memory assembly) }
{
    refuse_if(memory < STREAM_SIZE, Reason::OutputTooSmall, STREAM_SIZE)?;
    refuse_if(
        assembly < ASSEMBLY_SIZE,
        Reason::OutputTooSmall,
        ASSEMBLY_SIZE,
    )
}

// The output first, then the room, then the numbers and the bytes held.
#[tactic(auto, unfolding(protocol::specs::Verdict::judge_from, protocol::specs::Verdict::first_of, protocol::specs::Verdict::fault_if))]
fn judge_memory(memory: &[u8], assembly: usize, room: usize) -> Verdict
    ensures { result ≡ judge (feed_rules memory.now assembly room) }
{
    let held = u32_at(memory, HELD) as usize;
    let ended = u32_at(memory, ENDED);
    refuse_if(
        room < MOST_INFORMATION,
        Reason::OutputTooSmall,
        MOST_INFORMATION,
    )?;
    judge_room(memory.len(), assembly)?;
    refuse_if(MOST_HELD < held, Reason::Contradiction, HELD)?;
    refuse_if(1 < ended, Reason::Contradiction, ENDED)?;
    refuse_if(is_ended_beside(ended, held), Reason::Contradiction, ENDED)?;
    refuse_if(
        !is_unfinished(memory, held),
        Reason::Contradiction,
        PIECE + 4,
    )
}

// Whether an ended stream holds bytes.
#[tactic(auto, unfolding(crate::specs::LentStream::ended_beside))]
fn is_ended_beside(ended: u32, held: usize) -> bool
    ensures { result ≡ ended_beside ended held }
{
    ended == 1 && held != 0
}

// Whether the bytes held are those of an unfinished piece.
#[tactic(auto, using(crate::proofs::Memory::unfinished_none))]
fn is_unfinished(memory: &[u8], held: usize) -> bool
    ensures { result ≡ is_unfinished held (drop 8 memory.now) }
{
    memory.len() < PIECE || matches!(next_in(&memory[PIECE..], held, &[]), Next::Short)
}

// Memory that holds a stream which has not ended, with room.
fn feed_open(memory: &mut [u8], assembly: &mut [u8], chunk: &[u8], out: &mut [u8]) -> FedLent
    requires judged { judge (feed_rules memory.old (length assembly.old) (length out.old)) ≡ no_fault }
    requires open { eqb (u32_at memory.old 4) 1 ≡ false }
    ensures value { result ≡ (fed_in memory.old assembly.old chunk.now (length out.old)).fed }
    ensures memory_after { memory.new ≡ (fed_in memory.old assembly.old chunk.now (length out.old)).memory }
    ensures assembly_after { assembly.new ≡ (fed_in memory.old assembly.old chunk.now (length out.old)).assembly }
    ensures out_after { out.new ≡ over (fed_in memory.old assembly.old chunk.now (length out.old)).information out.old }
{
    let held = u32_at(memory, HELD) as usize;
    let state = State { held, ended: false };
    match prepare(state, &mut memory[PIECE..STREAM_SIZE], chunk, out.len()) {
        Ready::Done { state, said, taken } => {
            put_state(memory, state);
            FedLent { said, taken }
        }
        Ready::Ends {
            message_type,
            taken,
        } => {
            let held = 0;
            let ended = true;
            put_state(memory, State { held, ended });
            end_assembly(assembly, message_type);
            ended_at(taken)
        }
        Ready::InChunk(n) => {
            let received = receive_judged(assembly, &chunk[..n], out);
            FedLent {
                said: Said::Piece(received),
                taken: n,
            }
        }
        Ready::InBuffer { length, taken } => {
            let end = PIECE + length;
            let received = receive_judged(assembly, &memory[PIECE..end], out);
            wipe(memory, end);
            FedLent {
                said: Said::Piece(received),
                taken,
            }
        }
    }
}

// The two numbers of a stream.
#[tactic(auto, unfolding(crate::specs::LentStream::state_bytes))]
fn put_state(memory: &mut [u8], state: State)
    requires { state.held < 4096 }
    ensures { memory.new ≡ sets memory.old 0 (state_bytes state.held (cond state.ended 1 0)) }
{
    put_u32(memory, HELD, state.held as u32);
    put_u32(memory, ENDED, state.ended as u32);
}

// A whole message's length field leaves the assembly, any other empties it.
#[tactic(auto, unfolding(stream::specs::Stream::ended_on))]
fn end_assembly(assembly: &mut [u8], message_type: u32)
    ensures { assembly.new ≡ ended_on memory_door assembly.old message_type }
{
    if !is_whole(message_type) {
        // Its room was judged, so this refuses nothing.
        let _ = empty(assembly);
    }
}

// The stream has ended.
fn ended_at(taken: usize) -> FedLent
    ensures { result ≡ ended_fed taken }
{
    FedLent {
        said: Said::Ended(Refusal {
            reason: Reason::WrongLength,
            place: 4,
        }),
        taken,
    }
}
