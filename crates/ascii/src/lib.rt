// Numbers and lines in ASCII text: decimal digits, bytes in hexadecimal, and how far a text goes.
// It knows no payload.
#![tactic(auto)]

ghost use Rattle.std.specs.Prelude.{◌≡◌, ◌/◌, ◌+◌, ◌≤◌, ◌<◌, length, drop};
ghost use Rattle.std.proofs.lemmas.List.Edits.{sets};
ghost use Rattle.ascii.specs.Ascii.{decimal, hex_digit, hex_value, hex_run, unhexed, glyph_of, hex_pair, agreement, through};

use wire::{byte_at, put_byte, put_bytes};

// The digits of a number: those of bytes from `from` on.
#[derive(Clone, Copy)]
struct Digits {
    bytes: [u8; 20],
    from: usize,
}

// Puts the decimal digits of n at a place of the output, and answers how many they are.
pub fn put_decimal(out: &mut [u8], at: usize, n: u64) -> usize
    ensures value { result ≡ length (decimal n) }
    ensures out_after { out.new ≡ sets out.old at (decimal n) }
{
    let digits = digits_of(n);
    let text = &digits.bytes[digits.from..];
    put_bytes(out, at, text);
    text.len()
}

// The value of a hexadecimal digit of either case; 16 for any other byte.
#[tactic(auto, unfolding(crate::specs::Ascii::hex_digit))]
pub fn hex_digit(b: u8) -> u8
    ensures { result ≡ hex_digit b }
{
    match b {
        b'0'..=b'9' => b - b'0',
        b'A'..=b'F' => b - b'A' + 10,
        b'a'..=b'f' => b - b'a' + 10,
        _ => 16,
    }
}

// How many hexadecimal digits s begins with.
#[tactic(auto, unfolding(crate::specs::Ascii::hex_run))]
pub fn hex_run(s: &[u8]) -> usize
    ensures { result ≡ hex_run s.now }
{
    s.iter().take_while(|&&b| hex_digit(b) != 16).count()
}

// Puts the bytes that s spells in pairs of digits at the front of the output.
#[tactic(auto, using(crate::proofs::Laws::unhex_more), unfolding(crate::specs::Ascii::unhexed))]
pub fn unhex(s: &[u8], out: &mut [u8])
    ensures { out.new ≡ sets out.old 0 (unhexed (length s.now / 2) s.now) }
{
    for i in 0..s.len() / 2 {
        let high = hex_value(byte_at(s, 2 * i));
        let low = hex_value(byte_at(s, 2 * i + 1));
        put_byte(out, i, 16 * high + low);
    }
}

// Puts the two digits of a byte, in lower case, at a place of the output.
#[tactic(auto, using(wire::proofs::Laws::sets_out, wire::proofs::Laws::two_to), unfolding(crate::specs::Ascii::hex_pair))]
pub fn put_hex(out: &mut [u8], at: usize, b: u8)
    ensures { out.new ≡ sets out.old at (hex_pair b) }
{
    if out.len() <= at {
        return;
    }
    put_byte(out, at, glyph(b / 16));
    put_byte(out, at + 1, glyph(b % 16));
}

// How far s and a word agree from their beginnings.
pub fn agree(s: &[u8], word: &[u8]) -> usize
    ensures { result ≡ agreement s.now word.now }
{
    s.iter().zip(word).take_while(|(a, b)| **a == **b).count()
}

// The same from a place of s on.
#[tactic(auto, using(crate::proofs::Laws::none_past))]
pub fn agree_at(s: &[u8], at: usize, word: &[u8]) -> usize
    ensures { result ≡ agreement (drop at s.now) word.now }
{
    match s.get(at..) {
        Some(rest) => agree(rest, word),
        None => 0,
    }
}

// How many bytes s has up to the first b, with it; all of them where there is none.
pub fn length_through(s: &[u8], b: u8) -> usize
    ensures { result ≡ through s.now b }
{
    match s.iter().position(|&x| x == b) {
        Some(i) => i + 1,
        None => s.len(),
    }
}

// A `for` from the last digit on would end in a case that never comes, so the loop counts by itself.
fn digits_of(n: u64) -> Digits
    ensures { (drop result.from result.bytes ≡ decimal n) × (result.from ≤ 20) × (length result.bytes ≡ 20) }
{
    let mut bytes = [0u8; 20];
    let mut i: usize = 20;
    let mut rest = n;
    while 10 <= rest {
        i -= 1;
        bytes[i] = b'0' + (rest % 10) as u8;
        rest /= 10;
    }
    i -= 1;
    bytes[i] = b'0' + rest as u8;
    Digits { bytes, from: i }
}

fn glyph(digit: u8) -> u8
    requires { digit < 16 }
    ensures { result ≡ glyph_of digit }
{
    if digit < 10 {
        b'0' + digit
    } else {
        b'a' + (digit - 10)
    }
}

fn hex_value(b: u8) -> u8
    ensures { result ≡ hex_value b }
{
    hex_digit(b) % 16
}
