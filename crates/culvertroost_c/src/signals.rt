// signals, exported to C: each function is culvertroost::signals's, with its contract.
ghost use Rattle.std.specs.Prelude.{◌≡◌};
ghost use Rattle.c_structs.specs.Answers.{written_answer};
ghost use Rattle.c_structs.specs.Signals.{answer_of};
ghost use Rattle.culvertroost.specs.Signals.{read_at, read_chosen, write_at};

use c_structs::WrittenAnswer;
use c_structs::signals::{SignalStateAnswer, SignalStateInfo};

#[unsafe(no_mangle)]
pub extern "C" fn cvr_signal_state_read(version: u16, payload: &[u8]) -> SignalStateAnswer
    ensures { result ≡ answer_of (read_at version payload.now) }
{
    culvertroost::signals::cvr_signal_state_read(version, payload)
}

// Where the choice finds no fault, the answer is the plain one.
#[unsafe(no_mangle)]
pub extern "C" fn cvr_signal_state_read_with(
    version: u16,
    zero_size: u32,
    payload: &[u8],
) -> SignalStateAnswer
    ensures { result ≡ answer_of (read_chosen version zero_size payload.now) }
{
    culvertroost::signals::cvr_signal_state_read_with(version, zero_size, payload)
}

#[unsafe(no_mangle)]
pub extern "C" fn cvr_signal_state_write(info: SignalStateInfo, out: &mut [u8]) -> WrittenAnswer
    ensures value { result ≡ written_answer (write_at info out.old).answer }
    ensures out_after { out.new ≡ (write_at info out.old).output }
{
    culvertroost::signals::cvr_signal_state_write(info, out)
}
