// Puts the fragments of one message together. `feed` takes and gives back the assembly by value;
// `feed_in_place`, the core, works on a lent buffer and copies none of it. No payload is looked at.
// `door` takes any received piece.
#![tactic(auto)]

pub mod door;

ghost use Rattle.std.specs.Prelude.{◌≡◌, ◌++◌, ◌+◌, ◌≤◌, ◌<◌, length, take, replicate};
ghost use Rattle.wire.specs.Output.{over};
ghost use Rattle.protocol.specs.Verdict.{judge};
ghost use Rattle.assembler.specs.Assembly.{assembly_of, empty, by_value, in_place, refused, grown_progress, gather_of, begun_progress, begun_bytes, continues, join_rules, join_of, judged_of, step_of, lent_step_of, Delivers};

use message::{
    FirstHeader, Fragment, FragmentHeader, MessageHeader, first_length, is_wrong_amount,
    judge_fragment,
};
use protocol::service::ServiceId;
use protocol::{MOST_INFORMATION, Reason, Refusal, Verdict, refuse_if};
use wire::put_bytes;

// How far the pending message has come: 01's assembly without its buffer. Total 0 is no message.
#[derive(Clone, Copy)]
pub struct Progress {
    pub message: MessageHeader,
    pub total: u32,
    pub next: u32,
    pub information_length: u32,
    pub gathered: u32,
}

// 01's assembly.
#[derive(Clone, Copy)]
pub struct Assembly {
    pub progress: Progress,
    pub bytes: [u8; 4096],
}

// What a feed answers. `dropped` says that an unfinished message was dropped for this one.
#[derive(Clone, Copy)]
pub enum Answer {
    Pending {
        dropped: bool,
    },
    Complete {
        message: MessageHeader,
        length: usize,
        dropped: bool,
    },
}

#[derive(Clone, Copy)]
pub struct Fed {
    pub assembly: Assembly,
    pub answer: Result<Answer, Refusal>,
}

// The same where the buffer is lent, as it is to the C interface: only the progress goes back.
#[derive(Clone, Copy)]
pub struct FedInPlace {
    pub progress: Progress,
    pub answer: Result<Answer, Refusal>,
}

// What a piece brings: its information from `from` on joins the message that has come as far as
// `progress` says.
#[derive(Clone, Copy)]
struct Gathering {
    progress: Progress,
    from: usize,
    dropped: bool,
}

impl Assembly {
    pub fn empty() -> Assembly
        ensures { result ≡ empty }
    {
        Assembly {
            progress: Progress::none(),
            bytes: [0; 4096],
        }
    }
}

impl Progress {
    #[tactic(auto, unfolding(crate::specs::Assembly::empty))]
    pub fn none() -> Progress
        ensures { result ≡ empty.progress }
    {
        let service = ServiceId {
            word0: 0,
            word1: 0,
            word2: 0,
            word3: 0,
        };
        let message = MessageHeader {
            message_type: 0,
            transaction: 0,
            service,
            cid: 0,
            word: 0,
        };
        Progress {
            message,
            total: 0,
            next: 0,
            information_length: 0,
            gathered: 0,
        }
    }
}

// Feeds one piece. A complete message's information goes to the front of `out`.
pub fn feed(assembly: Assembly, piece: &[u8], out: &mut [u8]) -> Fed
    ensures value { result ≡ by_value (step_of assembly piece.now (length out.old)) }
    ensures out_after { out.new ≡ over (step_of assembly piece.now (length out.old)).information out.old }
{
    let mut bytes = assembly.bytes;
    let fed = feed_in_place(assembly.progress, &mut bytes, piece, out);
    let assembly = Assembly {
        progress: fed.progress,
        bytes,
    };
    Fed {
        assembly,
        answer: fed.answer,
    }
}

// The same with the buffer in place. A later piece that leaves its message pending touches no byte
// of the buffer but its own.
pub fn feed_in_place(
    progress: Progress,
    bytes: &mut [u8; 4096],
    piece: &[u8],
    out: &mut [u8],
) -> FedInPlace
    ensures value { result ≡ in_place (step_of (assembly_of progress bytes.old) piece.now (length out.old)) }
    ensures bytes_after { bytes.new ≡ (step_of (assembly_of progress bytes.old) piece.now (length out.old)).assembly.bytes }
    ensures out_after { out.new ≡ over (step_of (assembly_of progress bytes.old) piece.now (length out.old)).information out.old }
    ensures delivers { Delivers result.answer (step_of (assembly_of progress bytes.old) piece.now (length out.old)).information (length out.old) }
{
    feed_whole(progress, &mut bytes[..], piece, out)
}

// The same with a buffer whose length only its caller knows: a smaller one than 4,096 is refused, of a
// larger one the first 4,096 bytes are used.
#[tactic(auto, unfolding(crate::specs::Assembly::lent_step_of, wire::specs::Output::over))]
pub fn feed_lent(progress: Progress, bytes: &mut [u8], piece: &[u8], out: &mut [u8]) -> FedInPlace
    ensures value { result ≡ in_place (lent_step_of progress bytes.old piece.now (length out.old)) }
    ensures bytes_after { bytes.new ≡ over (lent_step_of progress bytes.old piece.now (length out.old)).assembly.bytes bytes.old }
    ensures out_after { out.new ≡ over (lent_step_of progress bytes.old piece.now (length out.old)).information out.old }
{
    if bytes.len() < MOST_INFORMATION {
        return FedInPlace {
            progress: Progress::none(),
            answer: Err(Refusal {
                reason: Reason::OutputTooSmall,
                place: MOST_INFORMATION,
            }),
        };
    }
    feed_whole(progress, &mut bytes[..MOST_INFORMATION], piece, out)
}

// The core, on a buffer of 4,096 bytes.
#[tactic(auto, using(crate::proofs::Laws::brings, crate::proofs::Laws::rest), unfolding(crate::specs::Assembly::step_of, crate::specs::Assembly::step_by, crate::specs::Assembly::refused, wire::specs::Output::over))]
fn feed_whole(progress: Progress, bytes: &mut [u8], piece: &[u8], out: &mut [u8]) -> FedInPlace
    requires { length bytes.old ≡ 4096 }
    ensures value { result ≡ in_place (step_of (assembly_of progress bytes.old) piece.now (length out.old)) }
    ensures bytes_after { bytes.new ≡ (step_of (assembly_of progress bytes.old) piece.now (length out.old)).assembly.bytes }
    ensures out_after { out.new ≡ over (step_of (assembly_of progress bytes.old) piece.now (length out.old)).information out.old }
{
    match judge_piece(progress, piece) {
        Err(refusal) => refuse(refusal, bytes),
        Ok(gathering) => {
            clear_if(gathering.dropped, bytes);
            gather(
                gathering.progress,
                bytes,
                &piece[gathering.from..],
                gathering.dropped,
                out,
            )
        }
    }
}

// A piece is judged before anything is written.
#[tactic(auto, using(message::proofs::Headers::later_accepted), unfolding(crate::specs::Assembly::judged_of, crate::specs::Assembly::judged_by))]
fn judge_piece(progress: Progress, piece: &[u8]) -> Result<Gathering, Refusal>
    ensures { result ≡ judged_of progress piece.now }
{
    match judge_fragment(piece)? {
        Fragment::First { header, first } => Ok(Gathering {
            progress: begin(header, first),
            from: first_length(header.message_type),
            dropped: 0 < progress.total,
        }),
        Fragment::Later(header) => join(progress, header, piece.len()),
    }
}

// A later piece of n bytes, with the header that every fragment has.
#[tactic(auto, unfolding(crate::specs::Assembly::join_of))]
fn join(progress: Progress, header: FragmentHeader, n: usize) -> Result<Gathering, Refusal>
    requires { (20 ≤ n) × (n ≤ 4096) × (header.number < header.total) }
    ensures { result ≡ join_of (judge (join_rules progress header n)) progress }
{
    judge_join(progress, header, n)?;
    Ok(Gathering {
        progress,
        from: 20,
        dropped: false,
    })
}

#[tactic(auto, unfolding(protocol::specs::Verdict::judge_from, protocol::specs::Verdict::first_of, protocol::specs::Verdict::fault_if))]
fn judge_join(progress: Progress, header: FragmentHeader, n: usize) -> Verdict
    requires { (20 ≤ n) × (n ≤ 4096) × (header.number < header.total) }
    ensures { result ≡ judge (join_rules progress header n) }
{
    let last = header.number + 1 == header.total;
    let gathered = progress.gathered as usize + (n - 20);
    let declared = progress.information_length as usize;
    refuse_if(!is_next(progress, header), Reason::WrongFragment, 16)?;
    refuse_if(
        is_wrong_amount(last, gathered, declared),
        Reason::WrongLength,
        4,
    )
}

// Whether a later fragment is the one that the pending message waits for.
#[tactic(auto, unfolding(crate::specs::Assembly::continues))]
fn is_next(progress: Progress, header: FragmentHeader) -> bool
    ensures { result ≡ continues progress header }
{
    progress.message.message_type == header.message_type
        && progress.message.transaction == header.transaction
        && progress.total == header.total
        && progress.next == header.number
        && progress.information_length as usize <= MOST_INFORMATION
}

fn begin(header: FragmentHeader, first: FirstHeader) -> Progress
    ensures { result ≡ begun_progress header first }
{
    Progress {
        message: first.message,
        total: header.total,
        next: 0,
        information_length: first.information_length,
        gathered: 0,
    }
}

// The information in `source` joins the message, which then waits or is complete.
#[tactic(auto, using(crate::proofs::Laws::cleared), unfolding(crate::specs::Assembly::gather_of, crate::specs::Assembly::refused, crate::specs::Assembly::completed, crate::specs::Assembly::waiting, crate::specs::Assembly::grown, wire::specs::Output::over))]
fn gather(
    progress: Progress,
    bytes: &mut [u8],
    source: &[u8],
    dropped: bool,
    out: &mut [u8],
) -> FedInPlace
    requires bytes_len { length bytes.old ≡ 4096 }
    requires source_bound { (progress.gathered + length source.now ≤ progress.information_length) × (progress.information_length ≤ 4096) × (progress.next < progress.total) }
    requires source_value { progress.next + 1 ≡ progress.total → progress.gathered + length source.now ≡ progress.information_length }
    ensures value { result ≡ in_place (gather_of (assembly_of progress bytes.old) source.now dropped (length out.old)) }
    ensures bytes_after { bytes.new ≡ (gather_of (assembly_of progress bytes.old) source.now dropped (length out.old)).assembly.bytes }
    ensures out_after { out.new ≡ over (gather_of (assembly_of progress bytes.old) source.now dropped (length out.old)).information out.old }
{
    let gathered = progress.gathered as usize;
    let length = progress.information_length as usize;
    if progress.next + 1 == progress.total {
        if out.len() < length {
            let small = Refusal {
                reason: Reason::OutputTooSmall,
                place: length,
            };
            return refuse(small, bytes);
        }
        deliver(bytes, gathered, source, out);
        clear(bytes);
        return FedInPlace {
            progress: Progress::none(),
            answer: Ok(Answer::Complete {
                message: progress.message,
                length,
                dropped,
            }),
        };
    }
    put_bytes(bytes, gathered, source);
    FedInPlace {
        progress: grow(progress, source.len()),
        answer: Ok(Answer::Pending { dropped }),
    }
}

// The first `gathered` bytes of the buffer and then `source`, to the front of `out`.
fn deliver(bytes: &[u8], gathered: usize, source: &[u8], out: &mut [u8])
    requires { (gathered ≤ length bytes.now) × (gathered + length source.now ≤ length out.old) }
    ensures { out.new ≡ over (take gathered bytes.now ++ source.now) out.old }
{
    put_bytes(out, 0, &bytes[..gathered]);
    put_bytes(out, gathered, source);
}

// One more piece, of n bytes of information.
fn grow(progress: Progress, n: usize) -> Progress
    requires { (progress.gathered + n ≤ 4096) × (progress.next < progress.total) }
    ensures { result ≡ grown_progress progress n }
{
    Progress {
        message: progress.message,
        total: progress.total,
        next: progress.next + 1,
        information_length: progress.information_length,
        gathered: (progress.gathered as usize + n) as u32,
    }
}

#[tactic(auto, using(crate::proofs::Laws::cleared), unfolding(crate::specs::Assembly::refused))]
fn refuse(refusal: Refusal, bytes: &mut [u8]) -> FedInPlace
    requires { length bytes.old ≡ 4096 }
    ensures value { result ≡ in_place (refused refusal) }
    ensures bytes_after { bytes.new ≡ (refused refusal).assembly.bytes }
{
    clear(bytes);
    FedInPlace {
        progress: Progress::none(),
        answer: Err(refusal),
    }
}

#[tactic(auto, unfolding(crate::specs::Assembly::begun_bytes))]
fn clear_if(dropped: bool, bytes: &mut [u8])
    requires { length bytes.old ≡ 4096 }
    ensures { bytes.new ≡ begun_bytes dropped bytes.old }
{
    if dropped {
        clear(bytes);
    }
}

// Fills the bytes with zeros. std's `fill` would test for none and store the last one apart.
#[tactic(auto, using(crate::proofs::Laws::filled, std::proofs::lemmas::List::Edits::fill_more))]
pub fn clear(bytes: &mut [u8])
    ensures { bytes.new ≡ replicate (length bytes.old) 0 }
{
    for i in 0..bytes.len() {
        bytes[i] = 0;
    }
}
