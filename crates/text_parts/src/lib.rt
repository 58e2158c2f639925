// Texts in parts: a fixed word, a word of a table, a run of digits, a decimal number in bounds. A
// text that is not good has a column: the length of its longest good beginning (specs/Parts).
// It knows no line's form.
#![tactic(auto)]

ghost use Rattle.std.specs.Prelude.{◌≡◌, ◌+◌, ◌-◌, ◌*◌, ◌≤◌, ◌<◌};
ghost use Rattle.text_parts.specs.Words.{word, also_word};
ghost use Rattle.text_parts.specs.Hex.{hex_digits_at, line_end_at};
ghost use Rattle.text_parts.specs.Decimals.{takes_digit, with_digit, number_of};

use ascii::{agree_at, hex_run};
use wire::byte_at;

// The decimal digits that a text begins with, and their value.
#[derive(Clone, Copy)]
pub struct Number {
    pub digits: usize,
    pub value: u32,
}

// What is reached so far, and one more word of the table, from a place of the text on.
#[tactic(auto, using(crate::proofs::Words::agreement_at))]
pub fn also_word<T: Copy>(
    reached: Result<T, usize>,
    s: &[u8],
    at: usize,
    text: &[u8],
    value: T,
) -> Result<T, usize>
    ensures { result ≡ also_word reached s.now at (word text.now value) }
{
    let Err(column) = reached else {
        return reached;
    };
    let n = agree_at(s, at, text);
    if n == text.len() {
        return Ok(value);
    }
    Err(column.max(at + n))
}

// The end of a line from `from` on: an even number of hexadecimal digits, at most `most`, and the line
// feed, with nothing behind it.
#[tactic(auto, using(crate::proofs::Ends::hex_digits_within, crate::proofs::Ends::feed_inside), unfolding(crate::specs::Hex::line_end_at))]
pub fn line_end_at(s: &[u8], from: usize, most: usize) -> Result<usize, usize>
    ensures { result ≡ line_end_at most s.now from }
{
    let digits = hex_digits_at(s, from, most);
    let end = from + digits;
    if digits % 2 == 1 {
        return Err(end);
    }
    if byte_at(s, end) != b'\n' {
        return Err(end);
    }
    if end + 1 < s.len() {
        return Err(end + 1);
    }
    Ok(digits)
}

// How many hexadecimal digits stand from `from` on, at most `most`.
#[tactic(auto, using(std::proofs::lemmas::List::take_min, wire::proofs::Laws::take_rest, crate::proofs::Ends::hex_digits_within), unfolding(crate::specs::Hex::hex_digits_at))]
fn hex_digits_at(s: &[u8], from: usize, most: usize) -> usize
    ensures { result ≡ hex_digits_at most s.now from }
{
    match s.get(from..) {
        Some(rest) => hex_run(&rest[..most.min(rest.len())]),
        None => 0,
    }
}

// The digits that a text begins with, as long as they are at most `most` and their value is at most
// `largest`.
#[tactic(auto, using(crate::proofs::Parts::last_end), unfolding(crate::specs::Decimals::number_of))]
pub fn number_of(s: &[u8], most: usize, largest: u32) -> Number
    ensures { result ≡ number_of most largest s.now }
{
    let mut number = Number {
        digits: 0,
        value: 0,
    };
    for &b in s {
        if !takes_digit(most, largest, number, b) {
            return number;
        }
        number = with_digit(number, b);
    }
    number
}

// Whether b is one digit more of a number in bounds.
fn takes_digit(most: usize, largest: u32, number: Number, b: u8) -> bool
    ensures { result ≡ takes_digit most largest number b }
{
    if !b.is_ascii_digit() || most <= number.digits {
        return false;
    }
    10 * u64::from(number.value) + u64::from(b - b'0') <= u64::from(largest)
}

fn with_digit(number: Number, b: u8) -> Number
    requires counted { number.digits < 18446744073709551615 }
    requires decimal { 48 ≤ b }
    requires bounded { 10 * number.value + (b - 48) ≤ 4294967295 }
    ensures { result ≡ with_digit number b }
{
    Number {
        digits: number.digits + 1,
        value: 10 * number.value + u32::from(b - b'0'),
    }
}
