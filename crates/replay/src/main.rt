// Reads a station's trace from standard input and writes what came of each of its lines. It only reads
// and writes; every byte of the output is the library's.
#![tactic(auto)]

ghost use Rattle.std.specs.Prelude.{◌≡◌, ◌≤◌, IfOk};

use listing::lines::collect;
use std::io::{self, Read, Write};
use trace::{put_columns, put_line};
use trace_step::Replay;

// What stands from line to line; the number of the last line; how many bytes of an unfinished one are
// kept, and how much of the output waits to be written.
#[derive(Drop)]
struct Session {
    replay: Replay,
    host: [u8; 4096],
    device: [u8; 4096],
    number: u64,
    line: [u8; 16640],
    have: usize,
    rows: [u8; 525312],
    out: [u8; 1048576],
    at: usize,
    ghost in_room: { have ≤ 16640 },
    ghost waiting: { at ≤ 262144 },
}

// No line's text is longer than what the output has behind this.
const FULL: usize = 262144;

impl Session {
    fn start() -> Session
        ensures { (result.have ≡ 0) × (result.at ≡ 0) }
    {
        Session {
            replay: Replay::start(),
            host: [0; 4096],
            device: [0; 4096],
            number: 0,
            line: [0; 16640],
            have: 0,
            rows: [0; 525312],
            out: [0; 1048576],
            at: 0,
        }
    }

    // The names of the columns; nothing waits behind them.
    fn write_columns(&mut self, rt: HostRuntime) -> io::Result<()>
        ensures { IfOk result (λ written. (self.new.have ≡ self.old.have) × (self.new.at ≡ self.old.at)) }
    {
        let n = put_columns(&mut self.out[..], 0);
        rt.stdout().write_all(&self.out[..n])
    }

    // Replays every line that ends in the chunk. How far a turn goes, `collect` says: no `for`.
    #[tactic(auto, using(listing::proofs::Laws::collect_next, listing::proofs::Laws::collect_have))]
    fn replay_chunk(&mut self, rt: HostRuntime, chunk: &[u8]) -> io::Result<()> {
        let mut from: usize = 0;
        while from < chunk.len() {
            let part = collect(chunk, from, &mut self.line, self.have);
            from = part.next;
            self.have = part.have;
            if part.is_ended {
                self.replay_line(rt)?;
            }
        }
        Ok(())
    }

    // Replays the line, and writes where the output is full.
    fn replay_line(&mut self, rt: HostRuntime) -> io::Result<()> {
        self.number = self.number.wrapping_add(1);
        let listed = put_line(
            self.replay,
            &mut self.host,
            &mut self.device,
            self.number,
            &self.line[..self.have],
            &mut self.rows,
            &mut self.out[..],
            self.at,
        );
        self.replay = listed.replay;
        self.have = 0;
        if listed.next < FULL {
            self.at = listed.next;
            return Ok(());
        }
        self.at = 0;
        rt.stdout().write_all(&self.out[..listed.next])
    }

    // Writes what waits.
    fn write(&mut self, rt: HostRuntime) -> io::Result<()>
        ensures { IfOk result (λ written. (self.new.have ≡ self.old.have) × (self.new.at ≡ 0)) }
    {
        rt.stdout().write_all(&self.out[..self.at])?;
        self.at = 0;
        Ok(())
    }
}

// A proved loop has to end, and nothing says that an input does: the loop takes no more turns than a
// number that no run uses up. Behind the end of the input, a last line without its line feed is a line
// too.
fn main(rt: HostRuntime) -> io::Result<()> {
    let mut session = Session::start();
    let mut chunk = [0u8; 65536];
    session.write_columns(rt)?;
    for _ in 0..u64::MAX {
        let n = rt.stdin().read(&mut chunk[..])?;
        if n == 0 {
            break;
        }
        session.replay_chunk(rt, &chunk[..n])?;
        session.write(rt)?;
    }
    if 0 < session.have {
        session.replay_line(rt)?;
        session.write(rt)?;
    }
    Ok(())
}
