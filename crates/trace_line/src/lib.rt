// One line of a station's trace: counter, tab, sender, tab, the piece's bytes in hexadecimal, line feed.
#![tactic(auto)]

ghost use Rattle.std.specs.Prelude.{◌≡◌, Some, None, cond};
ghost use Rattle.trace_line.specs.TraceLine.{is_sender, sender_of, line_of};

use text_parts::{line_end_at, number_of};
use wire::byte_at;

#[derive(Clone, Copy)]
pub enum Sender {
    Host,
    Device,
}

// What a line says: its bytes' digits stand from `from` on.
#[derive(Clone, Copy)]
pub struct Line {
    pub counter: u32,
    pub sender: Sender,
    pub from: usize,
    pub digits: usize,
}

// The most digits of a counter, and of a line's bytes: those of 256 bytes.
const MOST_DECIMAL: usize = 10;

const MOST_DIGITS: usize = 512;

// A line, or the column where it is bad.
#[tactic(auto, using(text_parts::proofs::Decimals::number_few), unfolding(crate::specs::TraceLine::line_of, crate::specs::TraceLine::sender_from, crate::specs::TraceLine::bytes_from))]
pub fn read_line(line: &[u8]) -> Result<Line, usize>
    ensures { result ≡ line_of line.now }
{
    let counter = number_of(line, MOST_DECIMAL, u32::MAX);
    let tab = counter.digits;
    if tab == 0 {
        return Err(tab);
    }
    if byte_at(line, tab) != b'\t' {
        return Err(tab);
    }
    let at = tab + 1;
    let sender = sender_of(byte_at(line, at)).ok_or(at)?;
    if byte_at(line, at + 1) != b'\t' {
        return Err(at + 1);
    }
    let from = at + 2;
    let digits = line_end_at(line, from, MOST_DIGITS)?;
    Ok(Line {
        counter: counter.value,
        sender,
        from,
        digits,
    })
}

fn sender_of(b: u8) -> Option<Sender>
    ensures { result ≡ cond (is_sender b) (Some (sender_of b)) None }
{
    match b {
        b'H' => Some(Sender::Host),
        b'D' => Some(Sender::Device),
        _ => None,
    }
}
