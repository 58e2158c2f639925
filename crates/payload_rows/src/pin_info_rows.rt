// The rows of a PIN_INFO payload.
ghost use Rattle.pin.specs.PinInfo.{read_of};
ghost use Rattle.rows.specs.Rows.{Put};
ghost use Rattle.payload_rows.specs.PinInfos.{pin_info_text};

use pin::pin_info;
use pin::pin_info::PinInfo;
use rows::{put_refused, put_row, put_text};

#[tactic(auto, unfolding(crate::specs::PinInfos::pin_info_text))]
pub fn put(payload: &[u8], out: &mut [u8], at: usize) -> usize
    ensures { Put out.old at (pin_info_text (read_of payload.now)) out.new result }
{
    match pin_info::read(payload) {
        Err(refusal) => put_refused(out, at, refusal),
        Ok(info) => {
            let pin_type = put_text(out, at, b"field\tvalue\n");
            let state = put_row(out, pin_type, b"PinType", info.pin_type as u64);
            let attempts = put_row(out, state, b"PinState", info.pin_state as u64);
            put_row(
                out,
                attempts,
                b"RemainingAttempts",
                info.remaining_attempts as u64,
            )
        }
    }
}
