// SIGNAL_STATE, for C. The number of the version is judged before anything else, then that of the
// reader's choice.
ghost use Rattle.std.specs.Prelude.{◌≡◌, Err};
ghost use Rattle.c_structs.specs.Answers.{written_answer};
ghost use Rattle.c_structs.specs.Choices.{by_reading};
ghost use Rattle.c_structs.specs.Signals.{answer_of};
ghost use Rattle.signal_state.specs.SignalState.{choice_verdict};
ghost use Rattle.culvertroost.specs.Signals.{read_at, read_chosen, write_at};

use c_structs::WrittenAnswer;
use c_structs::choices::reading_at;
use c_structs::signals::{SignalStateAnswer, SignalStateInfo, record_of};
use handshake::version_at;
use protocol::{Verdict, Written};
use signal_state::{judge_choice, read};
use signal_writer::write;

pub fn cvr_signal_state_read(version: u16, payload: &[u8]) -> SignalStateAnswer
    ensures { result ≡ answer_of (read_at version payload.now) }
{
    answer_at(version, payload)
}

// In a function of its own the compiler keeps the answer from being copied once more.
#[tactic(auto, unfolding(c_structs::specs::Signals::answer_by))]
fn answer_at(version: u16, payload: &[u8]) -> SignalStateAnswer
    ensures { result ≡ answer_of (read_at version payload.now) }
{
    match version_at(version) {
        Ok(version) => SignalStateAnswer::from(read(version, payload)),
        Err(refusal) => SignalStateAnswer::from(refusal),
    }
}

// Where the choice finds no fault, the answer is the plain one, by the function that makes it.
pub fn cvr_signal_state_read_with(version: u16, zero_size: u32, payload: &[u8]) -> SignalStateAnswer
    ensures { result ≡ answer_of (read_chosen version zero_size payload.now) }
{
    match judge_chosen(version, zero_size, payload) {
        Ok(()) => answer_at(version, payload),
        Err(refusal) => SignalStateAnswer::from(refusal),
    }
}

fn judge_chosen(version: u16, zero_size: u32, payload: &[u8]) -> Verdict
    ensures { result ≡ by_reading version zero_size Err (λ v z. choice_verdict v z payload.now) }
{
    let (version, choice) = reading_at(version, zero_size)?;
    judge_choice(version, choice, payload)
}

pub fn cvr_signal_state_write(info: SignalStateInfo, out: &mut [u8]) -> WrittenAnswer
    ensures value { result ≡ written_answer (write_at info out.old).answer }
    ensures out_after { out.new ≡ (write_at info out.old).output }
{
    WrittenAnswer::from(write_at(info, out))
}

#[tactic(auto, unfolding(protocol::specs::Verdict::given))]
fn write_at(info: SignalStateInfo, out: &mut [u8]) -> Written
    ensures value { result ≡ (write_at info out.old).answer }
    ensures out_after { out.new ≡ (write_at info out.old).output }
{
    let version = version_at(info.version)?;
    write(record_of(version, info), info.entries, out)
}
