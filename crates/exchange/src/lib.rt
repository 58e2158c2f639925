// Whole runs: what the cutter gives, the assembler puts together again. The claims stand in specs/
// and proofs/.
#![tactic(auto)]

ghost use Rattle.std.specs.Prelude.{◌≡◌};
ghost use Rattle.exchange.specs.Messages.{parts};
ghost use Rattle.cutter.specs.Cut.{cut_of};
ghost use Rattle.exchange.specs.Pass.{pass_of};
ghost use Rattle.exchange.specs.Collected.{before, collected, told};

use assembler::{Answer, FedInPlace, Progress, feed_in_place};
use cutter::cut;
use message::MessageHeader;
use protocol::Refusal;

// Cuts a message into `stream` and feeds it from there, part by part, to an empty assembly whose
// buffer is `bytes`: what comes out is what went in.
#[tactic(auto, unfolding(crate::specs::Pass::pass_of, crate::specs::Pass::pass_by))]
pub fn pass(
    message: MessageHeader,
    size: usize,
    information: &[u8],
    stream: &mut [u8],
    bytes: &mut [u8; 4096],
    out: &mut [u8],
) -> Result<Answer, Refusal>
    ensures value { result ≡ (pass_of message size information.now stream.old bytes.old out.old).answer }
    ensures stream_after { stream.new ≡ (cut_of message size information.now stream.old).output }
    ensures bytes_after { bytes.new ≡ (pass_of message size information.now stream.old bytes.old out.old).bytes }
    ensures out_after { out.new ≡ (pass_of message size information.now stream.old bytes.old out.old).output }
{
    let fragments = cut(message, size, information, stream)?;
    *bytes = [0; 4096];
    let none = Progress::none();
    let parts = fragments.count as usize;
    let fed = feed_parts(none, bytes, &stream[..fragments.length], size, parts, out);
    fed.answer
}

// Feeds a stream in `count` parts, each of `size` bytes but the last, which has what is left. What is
// answered last is given back, pending where there is no part.
pub fn feed_parts(
    progress: Progress,
    bytes: &mut [u8; 4096],
    stream: &[u8],
    size: usize,
    count: usize,
    out: &mut [u8],
) -> FedInPlace
    ensures value { result ≡ told (collected (before progress bytes.old out.old) (parts count size stream.now)) }
    ensures bytes_after { bytes.new ≡ (collected (before progress bytes.old out.old) (parts count size stream.now)).assembly.bytes }
    ensures out_after { out.new ≡ (collected (before progress bytes.old out.old) (parts count size stream.now)).output }
{
    let mut fed = FedInPlace {
        progress,
        answer: Ok(Answer::Pending { dropped: false }),
    };
    let mut rest = stream;
    for k in 0..count {
        let (part, left) = rest.split_at(rest.len().min(size));
        fed = feed_in_place(fed.progress, bytes, part, out);
        rest = left;
    }
    fed
}
