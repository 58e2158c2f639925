// Asks the library each question about payloads and readings that stands in the sample lines on
// standard input, and prints which of its answers are not those of the line (docs/samples.md).
#![tactic(auto)]

mod ask;
mod judge;
mod pins;
mod readings;
mod reads;
mod services;
mod writes;

use judge::Payloads;
use sample_lines::tally::tally;
use std::io;

fn main(rt: HostRuntime) -> io::Result<()> {
    tally(rt, &mut Payloads)?;
    Ok(())
}
