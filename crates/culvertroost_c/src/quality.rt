// quality, exported to C: each function is culvertroost::quality's, with its contract.
ghost use Rattle.std.specs.Prelude.{◌≡◌};
ghost use Rattle.signal_quality.specs.Decibels.{rsrp_of, snr_of};
ghost use Rattle.signal_quality.specs.Bars.{bars_of};
ghost use Rattle.c_structs.specs.Quality.{reading_info, bars_info};

use c_structs::quality::{BarsInfo, ReadingInfo};

#[unsafe(no_mangle)]
pub extern "C" fn cvr_rsrp(code: u32) -> ReadingInfo
    ensures { result ≡ reading_info (rsrp_of code) }
{
    culvertroost::quality::cvr_rsrp(code)
}

#[unsafe(no_mangle)]
pub extern "C" fn cvr_snr(code: u32) -> ReadingInfo
    ensures { result ≡ reading_info (snr_of code) }
{
    culvertroost::quality::cvr_snr(code)
}

#[unsafe(no_mangle)]
pub extern "C" fn cvr_bars(rssi: u32) -> BarsInfo
    ensures { result ≡ bars_info (bars_of rssi) }
{
    culvertroost::quality::cvr_bars(rssi)
}
