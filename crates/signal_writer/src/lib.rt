// The writer of the SIGNAL_STATE payload; what it writes is said beside the reader, in `signal_state`.
#![tactic(auto)]

ghost use Rattle.std.specs.Prelude.{◌≡◌, cond, [], ◌++◌, ◌+◌, ◌*◌, ◌≤◌, eqb, length};
ghost use Rattle.std.proofs.lemmas.List.Edits.{sets};
ghost use Rattle.wire.specs.Numbers.{digits};
ghost use Rattle.protocol.specs.Verdict.{judge, writing};
ghost use Rattle.pairs.specs.Pair.{placed, range_bytes};
ghost use Rattle.signal_state.specs.SignalState.{entry_place, number_rules, entry_in, any_known, contradicts, size_of, entries_verdict, limit_verdict, listed_verdict, number_bytes, entry_bytes, entries_bytes, listed_bytes, write_of};

use pairs::{PairKind, is_unfit, place_at, put_range};
use protocol::{Reason, Verdict, Written, refuse_if};
use signal_state::{
    COUNT_SIZE, ENTRY_SIZE, ERROR_RATE, ERROR_RATE_THRESHOLD, FIXED_PART_V2, LENGTH_V1, LIST_LIMIT,
    NUMBER_UNKNOWN, RSRP_SNR, RSSI, RSSI_THRESHOLD, RsrpSnr, SIGNAL_STRENGTH_INTERVAL, SignalForm,
    SignalState, entry_place, is_known, judge_entry, judge_numbers,
};
use wire::put_u32;

// Writes the record at its form's version; at 2.00 the first `count` entries with it.
#[tactic(auto, unfolding(signal_state::specs::SignalState::write_of))]
pub fn write(info: SignalState, entries: [RsrpSnr; 16], out: &mut [u8]) -> Written
    ensures value { result ≡ (write_of info entries out.old).answer }
    ensures out_after { out.new ≡ (write_of info entries out.old).output }
{
    match info.form {
        SignalForm::V1 => write_numbers(info, out),
        SignalForm::V2 { count } => write_listed(info, count, entries, out),
    }
}

// 1.00.
#[tactic(auto, using(crate::proofs::Laws::numbers_stored, signal_state::proofs::Laws::length_numbers), unfolding(protocol::specs::Verdict::writing, protocol::specs::Verdict::with_room, protocol::specs::Verdict::given, protocol::specs::Verdict::first_of, protocol::specs::Verdict::fault_if))]
fn write_numbers(info: SignalState, out: &mut [u8]) -> Written
    ensures value { result ≡ (writing (judge (number_rules info.rssi info.error_rate)) (number_bytes info) out.old).answer }
    ensures out_after { out.new ≡ (writing (judge (number_rules info.rssi info.error_rate)) (number_bytes info) out.old).output }
{
    judge_numbers(info.rssi, info.error_rate)?;
    refuse_if(out.len() < LENGTH_V1, Reason::OutputTooSmall, LENGTH_V1)?;
    put_numbers(info, &mut out[..LENGTH_V1]);
    Ok(LENGTH_V1)
}

// 2.00: the limit is judged before the entries are looked at.
#[tactic(auto, using(crate::proofs::Laws::listed_length, crate::proofs::Laws::listed_stored, crate::proofs::Laws::listed_entries, crate::proofs::Laws::listed_known, signal_state::proofs::Laws::length_listed, signal_state::proofs::Laws::limit_small, signal_state::proofs::Laws::small_size), unfolding(signal_state::specs::SignalState::listed_verdict, signal_state::specs::SignalState::body_verdict, protocol::specs::Verdict::writing, protocol::specs::Verdict::with_room, protocol::specs::Verdict::given, protocol::specs::Verdict::first_of, protocol::specs::Verdict::fault_if))]
fn write_listed(info: SignalState, count: u32, entries: [RsrpSnr; 16], out: &mut [u8]) -> Written
    ensures value { result ≡ (writing (listed_verdict info count (entry_in entries)) (listed_bytes info count (entry_in entries)) out.old).answer }
    ensures out_after { out.new ≡ (writing (listed_verdict info count (entry_in entries)) (listed_bytes info count (entry_in entries)) out.old).output }
{
    judge_limit(info, count)?;
    let listed = &entries[..count as usize];
    judge_entries(listed)?;
    refuse_if(is_stray(info.rssi, listed), Reason::Contradiction, RSSI)?;
    let n = FIXED_PART_V2 as usize + size_of(count);
    refuse_if(out.len() < n, Reason::OutputTooSmall, n)?;
    put_numbers(info, &mut out[..LENGTH_V1]);
    put_start(count, out);
    put_entries(listed, out);
    Ok(n)
}

#[tactic(auto, unfolding(signal_state::specs::SignalState::limit_verdict, protocol::specs::Verdict::first_of))]
fn judge_limit(info: SignalState, count: u32) -> Verdict
    ensures { result ≡ limit_verdict info count }
{
    judge_numbers(info.rssi, info.error_rate)?;
    let unfit = is_unfit(PairKind::List, LIST_LIMIT, size_of(count));
    refuse_if(unfit, Reason::WrongSize, RSRP_SNR)
}

#[tactic(auto, using(signal_state::proofs::Laws::entries_next, folds::proofs::Laws::fault_at), unfolding(signal_state::specs::SignalState::entries_verdict, folds::specs::Folds::first_fault, protocol::specs::Verdict::first_of))]
fn judge_entries(entries: &[RsrpSnr]) -> Verdict
    requires { length entries.now ≤ 16 }
    ensures { result ≡ entries_verdict 28 (entry_in entries.now) (length entries.now) }
{
    for (i, entry) in entries.iter().enumerate() {
        judge_entry(FIXED_PART_V2, i as u32, *entry)?;
    }
    Ok(())
}

// Whether an RSSI stands beside an RSRP or an SNR of the entries.
fn is_stray(rssi: u32, entries: &[RsrpSnr]) -> bool
    ensures { result ≡ contradicts rssi (any_known (entry_in entries.now) (length entries.now)) }
{
    rssi != NUMBER_UNKNOWN && is_any_known(entries)
}

// A loop and no `any`, which puts an Option of an address into memory: the boards' module refuses that.
#[tactic(auto, using(crate::proofs::Laws::known_at, folds::proofs::Laws::none_next), unfolding(signal_state::specs::SignalState::any_known, folds::specs::Folds::any_of))]
fn is_any_known(entries: &[RsrpSnr]) -> bool
    ensures { result ≡ any_known (entry_in entries.now) (length entries.now) }
{
    for entry in entries {
        if is_known(*entry) {
            return true;
        }
    }
    false
}

// The size of a list of so many entries.
fn size_of(count: u32) -> usize
    ensures { result ≡ size_of count }
{
    if count == 0 {
        0
    } else {
        COUNT_SIZE + ENTRY_SIZE * count as usize
    }
}

#[tactic(auto, unfolding(signal_state::specs::SignalState::number_bytes))]
fn put_numbers(info: SignalState, out: &mut [u8])
    ensures { out.new ≡ sets out.old 0 (number_bytes info) }
{
    put_u32(out, RSSI, info.rssi);
    put_u32(out, ERROR_RATE, info.error_rate);
    put_u32(out, SIGNAL_STRENGTH_INTERVAL, info.signal_strength_interval);
    put_u32(out, RSSI_THRESHOLD, info.rssi_threshold);
    put_u32(out, ERROR_RATE_THRESHOLD, info.error_rate_threshold);
}

// The pair, and the count of the list straight after it.
#[tactic(auto, using(signal_state::proofs::Laws::small_size, wire::proofs::Laws::sets_append), unfolding(pairs::specs::Pair::range_bytes))]
fn put_start(count: u32, out: &mut [u8])
    requires { count ≤ 16 }
    ensures { out.new ≡ sets out.old 20 (range_bytes (placed 28 (size_of count)) ++ cond (eqb count 0) [] (digits 4 count)) }
{
    let pair = place_at(FIXED_PART_V2, size_of(count) as u32);
    put_range(out, RSRP_SNR, pair);
    if count != 0 {
        put_u32(out, FIXED_PART_V2 as usize, count);
    }
}

#[tactic(auto, using(crate::proofs::Laws::entries_join, signal_state::proofs::Laws::size_some), unfolding(signal_state::specs::SignalState::entries_bytes, folds::specs::Folds::joined))]
fn put_entries(entries: &[RsrpSnr], out: &mut [u8])
    requires few { length entries.now ≤ 16 }
    requires room { 28 + size_of (length entries.now) ≤ length out.old }
    ensures { out.new ≡ sets out.old 32 (entries_bytes (length entries.now) (entry_in entries.now)) }
{
    for (i, entry) in entries.iter().enumerate() {
        put_entry(*entry, i as u32, out);
    }
}

// Entry i into its part of the output, so that its stores need no test of their own.
#[tactic(auto, using(crate::proofs::Laws::entry_stored))]
fn put_entry(entry: RsrpSnr, i: u32, out: &mut [u8])
    requires { entry_place 28 i + 20 ≤ length out.old }
    ensures { out.new ≡ sets out.old (entry_place 28 i) (entry_bytes entry) }
{
    let at = entry_place(FIXED_PART_V2, i);
    put_fields(entry, &mut out[at..at + ENTRY_SIZE]);
}

#[tactic(auto, unfolding(signal_state::specs::SignalState::entry_bytes))]
fn put_fields(entry: RsrpSnr, part: &mut [u8])
    ensures { part.new ≡ sets part.old 0 (entry_bytes entry) }
{
    put_u32(part, 0, entry.rsrp);
    put_u32(part, 4, entry.snr);
    put_u32(part, 8, entry.rsrp_threshold);
    put_u32(part, 12, entry.snr_threshold);
    put_u32(part, 16, entry.system_type);
}
