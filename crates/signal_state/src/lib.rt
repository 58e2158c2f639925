// The SIGNAL_STATE payload: its record and entries, and a reader of both forms; the writer is in
// `signal_writer`. What a code means in decibels is not known here.
#![tactic(auto)]

ghost use Rattle.std.specs.Prelude.{◌≡◌, ◌+◌, ◌*◌, ◌≤◌, length};
ghost use Rattle.protocol.specs.Verdict.{first_of, exact_length, open_length, judge as judged};
ghost use Rattle.pairs.specs.Pair.{by_default};
ghost use Rattle.protocol.specs.declared.Version.TheVariants.{V1, V2};
ghost use Rattle.wire.specs.Numbers.{u32_at};
ghost use Rattle.signal_state.specs.SignalState.{entry_place, entry_at, no_entries, entries_at, state_at, unmarked, number_rules, entry_rules, is_known, contradicts, body_verdict, head_verdict, choice_verdict, refused, read_entries, read_with, read_of, version_of};

use lists::{ListForm, judge_list, judged_list_count};
use pairs::{PairKind, ZeroSize, judge, range_at, shown_at};
use protocol::data_class::is_one_class;
use protocol::{
    Reason, Refusal, Verdict, Version, judge_exact_length, judge_open_length, refuse_if,
};
use wire::u32_at;

// One entry of the list.
#[repr(C)]
#[derive(Clone, Copy)]
pub struct RsrpSnr {
    pub rsrp: u32,
    pub snr: u32,
    pub rsrp_threshold: u32,
    pub snr_threshold: u32,
    pub system_type: u32,
}

// What only one form has: at 2.00 a list of `count` entries, which stand beside the record.
#[derive(Clone, Copy)]
pub enum SignalForm {
    V1,
    V2 { count: u32 },
}

#[derive(Clone, Copy)]
pub struct SignalState {
    pub rssi: u32,
    pub error_rate: u32,
    pub signal_strength_interval: u32,
    pub rssi_threshold: u32,
    pub error_rate_threshold: u32,
    pub form: SignalForm,
}

// The answer, and the entries beside it: zero past the count, and all zero with a refusal. No Result
// of both, since the claims say the entries of a refusal too.
#[derive(Clone, Copy)]
pub struct SignalStateShown {
    pub answer: Result<SignalState, Refusal>,
    pub entries: [RsrpSnr; 16],
}

pub const RSSI: usize = 0;

pub const ERROR_RATE: usize = 4;

pub const SIGNAL_STRENGTH_INTERVAL: usize = 8;

pub const RSSI_THRESHOLD: usize = 12;

pub const ERROR_RATE_THRESHOLD: usize = 16;

pub const RSRP_SNR: usize = 20;

pub const LENGTH_V1: usize = 20;

pub const FIXED_PART_V2: u32 = 28;

pub const LIST_LIMIT: u32 = 324;

pub const COUNT_SIZE: usize = 4;

pub const ENTRY_SIZE: usize = 20;

const MOST_ENTRIES: u32 = 16;

// The list behind the pair.
const LIST: ListForm = ListForm {
    limit: LIST_LIMIT,
    least: COUNT_SIZE as u32,
    count_place: 0,
    fewest: 1,
    most: MOST_ENTRIES,
    each: ENTRY_SIZE as u32,
    optional: true,
};

const LAST_RSSI: u32 = 31;

const LAST_ERROR_RATE: u32 = 7;

// Codes of the tables among other numbers, which stay numbers.
pub const NUMBER_UNKNOWN: u32 = 99;

const RSRP_UNKNOWN: u32 = 127;

const SNR_UNKNOWN: u32 = 128;

// By the caller's choice. Where it finds no fault, the answer is the one by default.
#[tactic(auto, using(crate::proofs::Choices::read_judged, crate::proofs::Choices::read_faulted))]
pub fn read_with(version: Version, zero_size: ZeroSize, payload: &[u8]) -> SignalStateShown
    ensures { result ≡ read_with version zero_size payload.now }
{
    match judge_choice(version, zero_size, payload) {
        Ok(()) => read(version, payload),
        Err(refusal) => refuse(refusal),
    }
}

// The fault of the pair by a choice, where nothing judged before it is at fault; at 1.00 none.
pub fn judge_choice(version: Version, zero_size: ZeroSize, payload: &[u8]) -> Verdict
    ensures { result ≡ choice_verdict version zero_size payload.now }
{
    match version {
        Version::V1 => Ok(()),
        Version::V2 => judge_pair(zero_size, payload),
    }
}

fn judge_pair(zero_size: ZeroSize, s: &[u8]) -> Verdict
    ensures { result ≡ choice_verdict V2 zero_size s.now }
{
    if judge_fixed(s).is_err() {
        return Ok(());
    }
    judge(
        zero_size,
        PairKind::List,
        FIXED_PART_V2,
        LIST_LIMIT,
        RSRP_SNR,
        s.len(),
        range_at(s, RSRP_SNR),
    )
}

// By default.
pub fn read(version: Version, payload: &[u8]) -> SignalStateShown
    ensures { result ≡ read_of version payload.now }
{
    match version {
        Version::V1 => read_numbers(payload),
        Version::V2 => read_listed(payload),
    }
}

pub fn version_of(info: SignalState) -> Version
    ensures { result ≡ version_of info }
{
    match info.form {
        SignalForm::V1 => Version::V1,
        SignalForm::V2 { .. } => Version::V2,
    }
}

// 1.00.
#[tactic(auto, unfolding(crate::specs::SignalState::read_with, crate::specs::SignalState::verdict_at))]
fn read_numbers(s: &[u8]) -> SignalStateShown
    ensures { result ≡ read_of V1 s.now }
{
    match judge_short(s) {
        Ok(()) => {
            let entries = no_entries();
            SignalStateShown {
                answer: Ok(state_at(s, SignalForm::V1)),
                entries,
            }
        }
        Err(refusal) => refuse(refusal),
    }
}

// All of a payload of 1.00.
#[tactic(auto, unfolding(protocol::specs::Verdict::first_of))]
fn judge_short(s: &[u8]) -> Verdict
    ensures { result ≡ first_of (exact_length 20 (length s.now)) (judged (number_rules (u32_at s.now 0) (u32_at s.now 4))) }
{
    judge_exact_length(LENGTH_V1, s.len())?;
    judge_numbers(u32_at(s, RSSI), u32_at(s, ERROR_RATE))
}

// 2.00: all that comes before the entries is judged before they are read.
#[tactic(auto, using(crate::proofs::Laws::count_small, crate::proofs::Laws::list_within, crate::proofs::Laws::read_through, crate::proofs::Laws::read_refused))]
fn read_listed(s: &[u8]) -> SignalStateShown
    ensures { result ≡ read_of V2 s.now }
{
    match judge_head(s) {
        Ok(()) => {
            let count = judged_list_count(s, RSRP_SNR as u32, LIST);
            let pair = shown_at(s, RSRP_SNR);
            read_entries(s, pair.start, count)
        }
        Err(refusal) => refuse(refusal),
    }
}

#[tactic(auto, unfolding(crate::specs::SignalState::head_of, crate::specs::SignalState::list_rules, protocol::specs::Verdict::first_of))]
fn judge_head(s: &[u8]) -> Verdict
    ensures { result ≡ head_verdict by_default s.now }
{
    judge_fixed(s)?;
    judge_list(ZeroSize::Absent, s, FIXED_PART_V2, RSRP_SNR as u32, LIST)
}

// What comes before the pair at 2.00.
#[tactic(auto, unfolding(protocol::specs::Verdict::first_of))]
fn judge_fixed(s: &[u8]) -> Verdict
    ensures { result ≡ first_of (open_length 28 (length s.now)) (judged (number_rules (u32_at s.now 0) (u32_at s.now 4))) }
{
    judge_open_length(FIXED_PART_V2 as usize, s.len())?;
    judge_numbers(u32_at(s, RSSI), u32_at(s, ERROR_RATE))
}

// Place and count stay two numbers: a slice of the entries would need a second `entry_at` in specs/.
#[tactic(auto, unfolding(crate::specs::SignalState::read_entries))]
fn read_entries(s: &[u8], offset: u32, count: u32) -> SignalStateShown
    requires { (count ≤ 16) × (offset + 4 + 20 * count ≤ length s.now) }
    ensures { result ≡ read_entries s.now offset count }
{
    match judge_body_at(s, u32_at(s, RSSI), offset, count) {
        Ok(()) => {
            let entries = entries_at(s, offset, count);
            SignalStateShown {
                answer: Ok(state_at(s, SignalForm::V2 { count })),
                entries,
            }
        }
        Err(refusal) => refuse(refusal),
    }
}

fn refuse(refusal: Refusal) -> SignalStateShown
    ensures { result ≡ refused refusal }
{
    let entries = no_entries();
    SignalStateShown {
        answer: Err(refusal),
        entries,
    }
}

#[tactic(auto, unfolding(crate::specs::SignalState::state_at))]
fn state_at(s: &[u8], form: SignalForm) -> SignalState
    ensures { result ≡ state_at form s.now }
{
    SignalState {
        rssi: u32_at(s, RSSI),
        error_rate: u32_at(s, ERROR_RATE),
        signal_strength_interval: u32_at(s, SIGNAL_STRENGTH_INTERVAL),
        rssi_threshold: u32_at(s, RSSI_THRESHOLD),
        error_rate_threshold: u32_at(s, ERROR_RATE_THRESHOLD),
        form,
    }
}

// Entry i of the list at `offset`, where all of it is there.
fn entry_at(s: &[u8], offset: u32, i: u32) -> RsrpSnr
    requires { entry_place offset i + 20 ≤ length s.now }
    ensures { result ≡ entry_at s.now offset i }
{
    let at = entry_place(offset, i);
    let part = &s[at..at + ENTRY_SIZE];
    RsrpSnr {
        rsrp: u32_at(part, 0),
        snr: u32_at(part, 4),
        rsrp_threshold: u32_at(part, 8),
        snr_threshold: u32_at(part, 12),
        system_type: u32_at(part, 16),
    }
}

pub fn entry_place(offset: u32, i: u32) -> usize
    ensures { result ≡ entry_place offset i }
{
    offset as usize + COUNT_SIZE + ENTRY_SIZE * i as usize
}

fn no_entries() -> [RsrpSnr; 16]
    ensures { result ≡ no_entries 16 }
{
    let zero = RsrpSnr {
        rsrp: 0,
        snr: 0,
        rsrp_threshold: 0,
        snr_threshold: 0,
        system_type: 0,
    };
    [zero; 16]
}

#[tactic(auto, using(crate::proofs::Laws::one_more), unfolding(folds::specs::Folds::list_of))]
fn entries_at(s: &[u8], offset: u32, n: u32) -> [RsrpSnr; 16]
    requires { (n ≤ 16) × (offset + 4 + 20 * n ≤ length s.now) }
    ensures { result ≡ entries_at s.now offset n }
{
    let mut entries = no_entries();
    for i in 0..n {
        entries[i as usize] = entry_at(s, offset, i);
    }
    entries
}

#[tactic(auto, unfolding(crate::specs::SignalState::number_rules, protocol::specs::Verdict::judge_from, protocol::specs::Verdict::first_of, protocol::specs::Verdict::fault_if))]
pub fn judge_numbers(rssi: u32, error_rate: u32) -> Verdict
    ensures { result ≡ judged (number_rules rssi error_rate) }
{
    refuse_if(is_unmarked(LAST_RSSI, rssi), Reason::OutsideTable, RSSI)?;
    refuse_if(
        is_unmarked(LAST_ERROR_RATE, error_rate),
        Reason::OutsideTable,
        ERROR_RATE,
    )
}

// Whether a number is over its table's last and not the mark of an unknown one.
fn is_unmarked(last: u32, x: u32) -> bool
    ensures { result ≡ unmarked last x }
{
    x != NUMBER_UNKNOWN && last < x
}

// The entries of the list at `offset`, and last what contradicts.
#[tactic(auto, using(crate::proofs::Laws::entries_next, crate::proofs::Laws::known_next, crate::proofs::Laws::body_fault, crate::proofs::Laws::body_last), unfolding(crate::specs::SignalState::entries_verdict, crate::specs::SignalState::any_known, folds::specs::Folds::first_fault, folds::specs::Folds::any_of, protocol::specs::Verdict::first_of))]
fn judge_body_at(s: &[u8], rssi: u32, offset: u32, n: u32) -> Verdict
    requires { offset + 4 + 20 * n ≤ length s.now }
    ensures { result ≡ body_verdict rssi offset (entry_at s.now offset) n }
{
    let mut known = false;
    for i in 0..n {
        let entry = entry_at(s, offset, i);
        judge_entry(offset, i, entry)?;
        known = known || is_known(entry);
    }
    refuse_if(is_contradiction(rssi, known), Reason::Contradiction, RSSI)
}

#[tactic(auto, unfolding(crate::specs::SignalState::entry_rules, protocol::specs::Verdict::judge_from, protocol::specs::Verdict::first_of, protocol::specs::Verdict::fault_if))]
pub fn judge_entry(offset: u32, i: u32, entry: RsrpSnr) -> Verdict
    ensures { result ≡ judged (entry_rules (entry_place offset i) entry) }
{
    let at = entry_place(offset, i);
    refuse_if(RSRP_UNKNOWN < entry.rsrp, Reason::OutsideTable, at)?;
    refuse_if(SNR_UNKNOWN < entry.snr, Reason::OutsideTable, at + 4)?;
    refuse_if(
        !is_one_class(Version::V2, entry.system_type),
        Reason::OutsideTable,
        at + 16,
    )
}

// Whether an RSRP or an SNR is there.
pub fn is_known(entry: RsrpSnr) -> bool
    ensures { result ≡ is_known entry }
{
    entry.rsrp != RSRP_UNKNOWN || entry.snr != SNR_UNKNOWN
}

// Whether there is an RSSI beside an RSRP or an SNR.
fn is_contradiction(rssi: u32, known: bool) -> bool
    ensures { result ≡ contradicts rssi known }
{
    known && rssi != NUMBER_UNKNOWN
}
