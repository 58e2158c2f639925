// Reads request lines from standard input and writes the listing of each. It only reads and writes;
// every byte of a listing is the library's.
#![tactic(auto)]

ghost use Rattle.std.specs.Prelude.{◌≤◌};

use listing::lines::collect;
use listing::list_line;
use std::io::{self, Read, Write};

// What is kept of a line whose end is not read yet: its first bytes, as far as a good line can go.
#[derive(Drop)]
struct Unfinished {
    line: [u8; 16640],
    have: usize,
    ghost in_room: { have ≤ 16640 },
}

impl Unfinished {
    // Answers every line that ends in the chunk. How far a turn goes, `collect` says: no `for`.
    #[tactic(auto, using(listing::proofs::Laws::collect_next, listing::proofs::Laws::collect_have))]
    fn answer_chunk(
        &mut self,
        rt: HostRuntime,
        chunk: &[u8],
        out: &mut [u8; 524288],
    ) -> io::Result<()> {
        let mut from: usize = 0;
        while from < chunk.len() {
            let part = collect(chunk, from, &mut self.line, self.have);
            from = part.next;
            self.have = part.have;
            if part.is_ended {
                self.answer(rt, out)?;
                self.have = 0;
            }
        }
        Ok(())
    }

    fn answer(&self, rt: HostRuntime, out: &mut [u8; 524288]) -> io::Result<()> {
        let n = list_line(&self.line[..self.have], out);
        rt.stdout().write_all(&out[..n])
    }
}

// A proved loop has to end, and nothing says that an input does: the loop takes no more turns than a
// number that no run uses up.
fn main(rt: HostRuntime) -> io::Result<()> {
    let mut unfinished = Unfinished {
        line: [0; 16640],
        have: 0,
    };
    let mut chunk = [0u8; 65536];
    let mut out = [0u8; 524288];
    for _ in 0..u64::MAX {
        let n = rt.stdin().read(&mut chunk[..])?;
        if n == 0 {
            break;
        }
        unfinished.answer_chunk(rt, &chunk[..n], &mut out)?;
    }
    if 0 < unfinished.have {
        unfinished.answer(rt, &mut out)?;
    }
    Ok(())
}
