// Decibels and bars, for C.
ghost use Rattle.std.specs.Prelude.{◌≡◌};
ghost use Rattle.signal_quality.specs.Decibels.{rsrp_of, snr_of};
ghost use Rattle.signal_quality.specs.Bars.{bars_of};
ghost use Rattle.c_structs.specs.Quality.{reading_info, bars_info};

use c_structs::quality::{BarsInfo, ReadingInfo};
use signal_quality::{bars_of, rsrp_of, snr_of};

pub fn cvr_rsrp(code: u32) -> ReadingInfo
    ensures { result ≡ reading_info (rsrp_of code) }
{
    ReadingInfo::from(rsrp_of(code))
}

pub fn cvr_snr(code: u32) -> ReadingInfo
    ensures { result ≡ reading_info (snr_of code) }
{
    ReadingInfo::from(snr_of(code))
}

pub fn cvr_bars(rssi: u32) -> BarsInfo
    ensures { result ≡ bars_info (bars_of rssi) }
{
    BarsInfo::from(bars_of(rssi))
}
