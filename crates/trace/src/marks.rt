// A mark in front of each row: the line's number, its milliseconds and its sender.
ghost use Rattle.std.specs.Prelude.{◌≡◌, ◌≤◌, length};
ghost use Rattle.rows.specs.Rows.{Put};
ghost use Rattle.trace.specs.Marked.{marked, header_in};
ghost use Rattle.trace.specs.Replay.{sender_text, mark_of};

use ascii::{agree, length_through};
use protocol::Refusal;
use rows::{put_field, put_number, put_text};
use trace_line::Sender;
use trace_step::Piece;

const LINE_FEED: u8 = 10;

const HEADER_LENGTH: usize = 12;

pub fn put_mark(number: u64, replayed: Result<Piece, Refusal>, out: &mut [u8], at: usize) -> usize
    ensures { Put out.old at (mark_of number replayed) out.new result }
{
    let next = put_number(out, at, number);
    match replayed {
        Err(_) => put_text(out, next, b"\t\t\t"),
        Ok(piece) => {
            let end = put_field(out, next, piece.elapsed as u64);
            put_sender(piece.sender, out, end)
        }
    }
}

fn put_sender(sender: Sender, out: &mut [u8], at: usize) -> usize
    ensures { Put out.old at (sender_text sender) out.new result }
{
    match sender {
        Sender::Host => put_text(out, at, b"\tH\t"),
        Sender::Device => put_text(out, at, b"\tD\t"),
    }
}

// The rows of a text, with a mark in front of each.
pub fn put_marked(mark: &[u8], text: &[u8], out: &mut [u8], at: usize) -> usize
    ensures { Put out.old at (marked mark.now text.now) out.new result }
{
    let mut next = at;
    // A row is as long as its text: no range to go over, and std has no split_inclusive.
    let mut i: usize = 0;
    while i < text.len() {
        let rest = &text[i..];
        let n = length_through(rest, LINE_FEED);
        let place = put_text(out, next, mark);
        next = put_text(out, place, &rest[..n]);
        i += n;
    }
    next
}

// How long a listing's header is: a refused payload's has none.
pub fn header_in(listing: &[u8]) -> usize
    ensures { (result ≡ header_in listing.now) × (result ≤ length listing.now) }
{
    if agree(listing, b"field\tvalue\n") == HEADER_LENGTH {
        return HEADER_LENGTH;
    }
    0
}
