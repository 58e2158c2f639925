// Lines out of chunks of any length: what a program keeps of a line until its end is read.
ghost use Rattle.std.specs.Prelude.{◌≡◌, ◌+◌, ◌≤◌, min, length, take, drop};
ghost use Rattle.std.proofs.lemmas.List.Edits.{sets};
ghost use Rattle.listing.specs.Lines.{collect_of, line_bytes, kept};

use ascii::length_through;
use wire::{byte_at, put_run};

// Where the chunk goes on, how many bytes of the line are kept, and whether it has ended.
#[derive(Clone, Copy)]
pub struct Collected {
    pub next: usize,
    pub have: usize,
    pub is_ended: bool,
}

const LINE_ROOM: usize = 16640;

// Adds the chunk's bytes from `from` on, up to a line feed, to the line that has `have` bytes so
// far. What has no room is dropped: a line that long is a bad line by what is kept of it.
#[tactic(auto, using(crate::proofs::Laws::rest_length, crate::proofs::Laws::line_le, crate::proofs::Laws::line_some, crate::proofs::Laws::line_none, crate::proofs::Laws::line_put), unfolding(crate::specs::Lines::collect_of))]
pub fn collect(chunk: &[u8], from: usize, line: &mut [u8; 16640], have: usize) -> Collected
    ensures value { result ≡ collect_of chunk.now from have }
    ensures line_after { line.new ≡ sets line.old have (line_bytes chunk.now from) }
{
    if chunk.len() <= from {
        return Collected {
            next: from,
            have: keep(have, 0),
            is_ended: false,
        };
    }
    let rest = &chunk[from..];
    let n = length_through(rest, b'\n');
    put_run(&mut line[..], have, rest, n);
    Collected {
        next: from + n,
        have: keep(have, n),
        is_ended: byte_at(chunk, from + n - 1) == b'\n',
    }
}

// How many bytes are kept of a line of have + n.
fn keep(have: usize, n: usize) -> usize
    ensures { result ≡ kept (have + n) }
{
    have.saturating_add(n).min(LINE_ROOM)
}
