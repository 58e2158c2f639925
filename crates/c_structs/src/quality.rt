// Readings and bars in C's layout.
ghost use Rattle.std.specs.Prelude.{◌≡◌};
ghost use Rattle.c_structs.specs.Quality.{no_value, shown, reading_info, bars_info};

use crate::{RefusalInfo, no_refusal};
use protocol::Refusal;
use signal_quality::Reading;

// 1 dBm, 2 dB, 3 below the range, with its edge, 4 unknown; 0 where refused. The value is 0 where
// there is none.
#[repr(C)]
#[derive(Clone, Copy)]
pub struct ReadingInfo {
    pub refusal: RefusalInfo,
    pub kind: u32,
    pub value: f32,
}

// 1 where there are bars, 0 where the RSSI is no reading or refused.
#[repr(C)]
#[derive(Clone, Copy)]
pub struct BarsInfo {
    pub refusal: RefusalInfo,
    pub reading: u32,
    pub bars: u32,
}

const DBM: u32 = 1;

const DB: u32 = 2;

const BELOW_RANGE: u32 = 3;

const UNKNOWN: u32 = 4;

impl From<Result<Reading, Refusal>> for ReadingInfo {
    #[tactic(auto, unfolding(crate::specs::Quality::reading_info))]
    fn from(read: Result<Reading, Refusal>) -> ReadingInfo
        ensures { result ≡ reading_info read }
    {
        match read {
            Ok(reading) => ReadingInfo::from(reading),
            Err(refusal) => ReadingInfo {
                refusal: RefusalInfo::from(refusal),
                kind: 0,
                value: no_value(),
            },
        }
    }
}

impl From<Reading> for ReadingInfo {
    #[tactic(auto, unfolding(crate::specs::Quality::shown))]
    fn from(reading: Reading) -> ReadingInfo
        ensures { result ≡ shown reading }
    {
        let (kind, value) = match reading {
            Reading::Dbm(value) => (DBM, value),
            Reading::Db(value) => (DB, value),
            Reading::BelowRange(value) => (BELOW_RANGE, value),
            Reading::Unknown => (UNKNOWN, no_value()),
        };
        ReadingInfo {
            refusal: no_refusal(),
            kind,
            value,
        }
    }
}

fn no_value() -> f32
    ensures { result ≡ no_value }
{
    0.0
}

impl From<Result<Option<u32>, Refusal>> for BarsInfo {
    #[tactic(auto, unfolding(crate::specs::Quality::bars_info))]
    fn from(bars: Result<Option<u32>, Refusal>) -> BarsInfo
        ensures { result ≡ bars_info bars }
    {
        match bars {
            Ok(Some(bars)) => BarsInfo {
                refusal: no_refusal(),
                reading: 1,
                bars,
            },
            Ok(None) => BarsInfo {
                refusal: no_refusal(),
                reading: 0,
                bars: 0,
            },
            Err(refusal) => BarsInfo {
                refusal: RefusalInfo::from(refusal),
                reading: 0,
                bars: 0,
            },
        }
    }
}
