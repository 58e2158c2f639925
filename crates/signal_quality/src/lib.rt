// Decibels from the codes of a signal entry, and bars from an RSSI. No payload is known here.
#![tactic(auto)]

ghost use Rattle.std.specs.Prelude.{◌≡◌};
ghost use Rattle.signal_quality.specs.Decibels.{coded, rsrp_of, snr_of};
ghost use Rattle.signal_quality.specs.Bars.{bars_table, reached, bars_of};

use protocol::{Reason, Refusal, refuse_if};

// 01's reading: the lower edge of a code's step; below the range, with the range's edge; or unknown.
#[derive(Clone, Copy)]
pub enum Reading {
    Dbm(f32),
    Db(f32),
    BelowRange(f32),
    Unknown,
}

// Every code that is read as a number is below this; what comes of another is not shown.
const KNOWN_CODES: u32 = 128;

// Codes of the tables among other numbers, which stay numbers.
const RSRP_UNKNOWN: u32 = 127;

const SNR_UNKNOWN: u32 = 128;

const RSSI_UNKNOWN: u32 = 99;

const LAST_RSSI: u32 = 31;

// The default table, highest row first: from this RSSI on, so many bars.
const BARS: [[u32; 2]; 5] = [[17, 5], [12, 4], [7, 3], [4, 2], [2, 1]];

pub fn rsrp_of(code: u32) -> Result<Reading, Refusal>
    ensures { result ≡ rsrp_of code }
{
    let dbm = (code % KNOWN_CODES) as i16 - 157;
    by_table(code, RSRP_UNKNOWN, -156.0, Reading::Dbm(dbm as f32))
}

pub fn snr_of(code: u32) -> Result<Reading, Refusal>
    ensures { result ≡ snr_of code }
{
    let twice = (code % KNOWN_CODES) as i16 - 47;
    by_table(code, SNR_UNKNOWN, -23.0, Reading::Db(twice as f32 / 2.0))
}

#[tactic(auto, unfolding(crate::specs::Bars::bars_of, protocol::specs::Verdict::fault_if))]
pub fn bars_of(rssi: u32) -> Result<Option<u32>, Refusal>
    ensures { result ≡ bars_of rssi }
{
    if rssi == RSSI_UNKNOWN {
        return Ok(None);
    }
    refuse_if(LAST_RSSI < rssi, Reason::OutsideTable, 0)?;
    Ok(Some(highest_reached(rssi)))
}

// A code by its table: outside it, unknown, below the range, or the reading of a known one.
#[tactic(auto, unfolding(crate::specs::Decibels::coded, protocol::specs::Verdict::fault_if))]
fn by_table(code: u32, unknown: u32, edge: f32, known: Reading) -> Result<Reading, Refusal>
    ensures { result ≡ coded unknown edge known code }
{
    refuse_if(unknown < code, Reason::OutsideTable, 0)?;
    Ok(if code == unknown {
        Reading::Unknown
    } else if code == 0 {
        Reading::BelowRange(edge)
    } else {
        known
    })
}

// The bars of the highest row that is reached, or 0.
#[tactic(auto, using(crate::proofs::Rows::here, crate::proofs::Rows::past), unfolding(crate::specs::Bars::reached, crate::specs::Bars::bars_table))]
fn highest_reached(rssi: u32) -> u32
    ensures { result ≡ reached bars_table rssi }
{
    for [from, bars] in BARS {
        if from <= rssi {
            return bars;
        }
    }
    0
}
