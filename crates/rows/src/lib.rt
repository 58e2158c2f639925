// Rows of text, one behind the other: a name, a tab, a value, a line feed. Each is put at any place
// of any output; what has no room is dropped. It knows no payload. (Output and place stay two
// parameters: of a struct that borrows the output each function would also have to say that it keeps
// the borrow.)
#![tactic(auto)]

ghost use Rattle.std.specs.Prelude.{◌≡◌, ◌+◌, ◌-◌, min};
ghost use Rattle.ascii.specs.Ascii.{decimal, hex_pair, hexed};
ghost use Rattle.rows.specs.Rows.{Put, field, row, indexed_row, text_row, refusal_line, refused_line};

use ascii::{put_decimal, put_hex};
use protocol::Refusal;
use wire::put_bytes;

// A row whose value is a number. Like every function here it answers the place behind what it put.
pub fn put_row(out: &mut [u8], at: usize, name: &[u8], value: u64) -> usize
    ensures { Put out.old at (row name.now value) out.new result }
{
    let tab = put_text(out, at, name);
    let end = put_field(out, tab, value);
    put_text(out, end, b"\n")
}

// A row of entry i of a list.
pub fn put_indexed_row(out: &mut [u8], at: usize, name: &[u8], i: usize, value: u64) -> usize
    ensures { Put out.old at (indexed_row name.now i value) out.new result }
{
    let open = put_text(out, at, name);
    let index = put_text(out, open, b"[");
    let close = put_number(out, index, i as u64);
    let tab = put_text(out, close, b"]");
    let end = put_field(out, tab, value);
    put_text(out, end, b"\n")
}

// A row whose value is a text, in hexadecimal.
pub fn put_text_row(out: &mut [u8], at: usize, name: &[u8], text: &[u8]) -> usize
    ensures { Put out.old at (text_row name.now text.now) out.new result }
{
    let tab = put_text(out, at, name);
    let digits = put_text(out, tab, b"\t");
    let end = put_digits(out, digits, text);
    put_text(out, end, b"\n")
}

// `refused`, the number and the place.
pub fn put_refused(out: &mut [u8], at: usize, refusal: Refusal) -> usize
    ensures { Put out.old at (refused_line refusal) out.new result }
{
    put_refusal(out, at, b"refused", refusal)
}

// A name, the number and the place.
pub fn put_refusal(out: &mut [u8], at: usize, name: &[u8], refusal: Refusal) -> usize
    ensures { Put out.old at (refusal_line name.now refusal) out.new result }
{
    let number = put_text(out, at, name);
    let place = put_field(out, number, u64::from(u32::from(refusal.reason)));
    let end = put_field(out, place, refusal.place as u64);
    put_text(out, end, b"\n")
}

// A tab and a number.
pub fn put_field(out: &mut [u8], at: usize, value: u64) -> usize
    ensures { Put out.old at (field value) out.new result }
{
    let digits = put_text(out, at, b"\t");
    put_number(out, digits, value)
}

pub fn put_number(out: &mut [u8], at: usize, value: u64) -> usize
    ensures { Put out.old at (decimal value) out.new result }
{
    let digits = put_decimal(out, at, value);
    behind(out.len(), at, digits)
}

// The digits of a text.
pub fn put_digits(out: &mut [u8], at: usize, text: &[u8]) -> usize
    ensures { Put out.old at (hexed text.now) out.new result }
{
    let mut next = at;
    for &b in text {
        next = put_pair(out, next, b);
    }
    next
}

pub fn put_text(out: &mut [u8], at: usize, text: &[u8]) -> usize
    ensures { Put out.old at text.now out.new result }
{
    put_bytes(out, at, text);
    behind(out.len(), at, text.len())
}

fn put_pair(out: &mut [u8], at: usize, b: u8) -> usize
    ensures { Put out.old at (hex_pair b) out.new result }
{
    put_hex(out, at, b);
    behind(out.len(), at, 2)
}

// The place behind n bytes at a place of an output, or behind as many of them as it has room for.
fn behind(length: usize, at: usize, n: usize) -> usize
    ensures { result ≡ at + min n (length - at) }
{
    at + n.min(length.saturating_sub(at))
}
