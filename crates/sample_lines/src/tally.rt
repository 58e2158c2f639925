// A run over the sample lines on standard input: which of them are not answered right, and how many.
ghost use Rattle.std.specs.Prelude.{◌≤◌, IfOk, length};

use crate::line_end;
use std::io::{self, Read, Write};

// Who says whether a line is answered right, with what stays from line to line.
pub trait LineJudge {
    fn is_right(&mut self, line: &[u8]) -> bool;
}

// How many lines there are, and how many of them are not right.
#[derive(Clone, Copy)]
pub struct Totals {
    pub lines: usize,
    pub differing: usize,
}

// Prints the number of each line that is not right, and the tally. Of the input it reads the first MiB.
pub fn tally<J: LineJudge>(rt: HostRuntime, judge: &mut J) -> io::Result<Totals>
    ensures { IfOk result (λ totals. totals.differing ≤ totals.lines) }
{
    let mut text = [0u8; 1048576];
    tally_in(rt, judge, &mut text)
}

// In lent room: a buffer that grows would take three times as much memory while it does.
fn tally_in<J: LineJudge>(
    rt: HostRuntime,
    judge: &mut J,
    text: &mut [u8; 1048576],
) -> io::Result<Totals>
    ensures { IfOk result (λ totals. totals.differing ≤ totals.lines) }
{
    let n = read_full(rt, &mut text[..])?;
    let all = &text[..];
    tally_lines(rt, judge, &all[..n])
}

fn tally_lines<J: LineJudge>(rt: HostRuntime, judge: &mut J, text: &[u8]) -> io::Result<Totals>
    ensures { IfOk result (λ totals. totals.differing ≤ totals.lines) }
{
    let mut lines: usize = 0;
    let mut differing: usize = 0;
    let mut rest = text;
    // How long a line is, the search for its end says: no `for`.
    while !rest.is_empty() {
        let (line, behind) = rest.split_at(line_end(rest, 0));
        lines += 1;
        if !judge.is_right(line) {
            differing += 1;
            println!(rt; "{lines}\tdiffers")?;
        }
        rest = behind;
    }
    println!(rt; "samples {lines} differ {differing}")?;
    Ok(Totals { lines, differing })
}

// Reads until the input ends or there is no more room, and answers how many bytes came.
fn read_full(rt: HostRuntime, into: &mut [u8]) -> io::Result<usize>
    ensures { IfOk result (λ n. n ≤ length into.new) }
{
    let mut done: usize = 0;
    // How much comes at a time, the input says: no `for`.
    while done < into.len() {
        let n = rt.stdin().read(&mut into[done..])?;
        if n == 0 {
            break;
        }
        done += n;
    }
    Ok(done)
}
