// Asks the library each question about messages and both ends that stands in the sample lines on
// standard input, and prints which of its answers are not those of the line (docs/samples.md).
#![tactic(auto)]

mod ask;
mod hosts;
mod judge;
mod messages;
mod modems;
mod pieces;
mod pins;
mod streams;

use ask::Memory;
use sample_lines::tally::tally;
use std::io;

fn main(rt: HostRuntime) -> io::Result<()> {
    tally(rt, &mut Memory::new())?;
    Ok(())
}
