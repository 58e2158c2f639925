// The rows of a SIGNAL_STATE payload, read strictly.
ghost use Rattle.std.specs.Prelude.{◌≡◌, ◌+◌, length};
ghost use Rattle.pairs.specs.declared.ZeroSize.TheVariants.{Strict};
ghost use Rattle.signal_state.specs.SignalState.{read_with};
ghost use Rattle.rows.specs.Rows.{Put};
ghost use Rattle.entry_rows.specs.Signals.{count_of, number_rows, entry_rows, entries_rows, signal_text};

use pairs::ZeroSize;
use protocol::Version;
use rows::{put_indexed_row, put_refused, put_row, put_text};
use signal_state::{RsrpSnr, SignalForm, SignalState};

#[tactic(auto, using(crate::proofs::Signals::few_entries), unfolding(crate::specs::Signals::answer_text))]
pub fn put(version: Version, payload: &[u8], out: &mut [u8], at: usize) -> usize
    ensures { Put out.old at (signal_text (read_with version Strict payload.now)) out.new result }
{
    let shown = signal_state::read_with(version, ZeroSize::Strict, payload);
    match shown.answer {
        Err(refusal) => put_refused(out, at, refusal),
        Ok(state) => {
            let rssi = put_text(out, at, b"field\tvalue\n");
            let list = put_numbers(state, out, rssi);
            put_entries(out, list, &shown.entries[..count_of(state) as usize])
        }
    }
}

// The rows that both forms have.
fn put_numbers(state: SignalState, out: &mut [u8], at: usize) -> usize
    ensures { Put out.old at (number_rows state) out.new result }
{
    let rate = put_row(out, at, b"Rssi", state.rssi as u64);
    let interval = put_row(out, rate, b"ErrorRate", state.error_rate as u64);
    let rssi = put_row(
        out,
        interval,
        b"SignalStrengthInterval",
        state.signal_strength_interval as u64,
    );
    let errors = put_row(out, rssi, b"RssiThreshold", state.rssi_threshold as u64);
    put_row(
        out,
        errors,
        b"ErrorRateThreshold",
        state.error_rate_threshold as u64,
    )
}

fn count_of(state: SignalState) -> u32
    ensures { result ≡ count_of state.form }
{
    match state.form {
        SignalForm::V1 => 0,
        SignalForm::V2 { count } => count,
    }
}

fn put_entries(out: &mut [u8], at: usize, entries: &[RsrpSnr]) -> usize
    ensures { Put out.old at (entries_rows entries.now (length entries.now)) out.new result }
{
    let mut next = at;
    for i in 0..entries.len() {
        next = put_entry(out, next, i, entries[i]);
    }
    next
}

fn put_entry(out: &mut [u8], at: usize, i: usize, entry: RsrpSnr) -> usize
    ensures { Put out.old at (entry_rows i entry) out.new result }
{
    let snr = put_indexed_row(out, at, b"RSRP", i, entry.rsrp as u64);
    let strength = put_indexed_row(out, snr, b"SNR", i, entry.snr as u64);
    let ratio = put_indexed_row(
        out,
        strength,
        b"RSRPThreshold",
        i,
        entry.rsrp_threshold as u64,
    );
    let system = put_indexed_row(out, ratio, b"SNRThreshold", i, entry.snr_threshold as u64);
    put_indexed_row(out, system, b"SystemType", i, entry.system_type as u64)
}
