// Sample lines (docs/samples.md): their fields, which are bytes in hexadecimal, and whether what a
// call left is what its line says.
#![tactic(auto)]

pub mod answers;
pub mod tally;

ghost use Rattle.std.specs.Prelude.{◌≡◌, ◌+◌, ◌≤◌, min, length, get_or, drop};
ghost use Rattle.std.specs.List.{list_all};
ghost use Rattle.std.proofs.lemmas.List.Edits.{sets};
ghost use Rattle.sample_lines.specs.Lines.{line_end, ends_line, digits_at, field_bytes, next_after, field_next, is_line, field, same_words, same_bytes, is_listed, is_output, is_answer};

use answers::Asked;
use ascii::{hex_run, length_through, unhex};
use wire::{byte_at, u32_at};

// What stands in the output and the list before a call.
pub const UNTOUCHED: u8 = 0xAA;

pub const UNTOUCHED_WORD: u32 = 0xAAAA_AAAA;

// The place after a field that is not one. (With an Option, what a line of over 4 GiB leaves in the
// outputs would change.)
const NO_FIELD: usize = 0xFFFF_FFFF;

// How many bytes a line has at most, its line feed included.
const MOST_LINE: usize = 16640;

// Where the line that begins at a place of a text ends: behind its line feed, or with the text.
#[tactic(auto, using(crate::proofs::Laws::rest_through, crate::proofs::Laws::line_some, crate::proofs::Laws::line_within), unfolding(crate::specs::Lines::line_end))]
pub fn line_end(text: &[u8], from: usize) -> usize
    ensures value { result ≡ line_end text.now from }
    ensures lower_bound { min (from + 1) (length text.now) ≤ result }
    ensures upper_bound { result ≤ length text.now }
{
    match text.get(from..) {
        Some(rest) => from + length_through(rest, b'\n'),
        None => text.len(),
    }
}

// Puts the bytes of the five fields at the front of as many outputs, and answers whether the line
// has them and nothing else.
#[tactic(auto, unfolding(crate::specs::Lines::field_at))]
pub fn read_line(
    line: &[u8],
    question: &mut [u8; 1],
    arguments: &mut [u8; 16640],
    input: &mut [u8; 16640],
    answer: &mut [u8; 16640],
    output: &mut [u8; 16640],
) -> bool
    ensures value { result ≡ is_line line.now }
    ensures question_after { question.new ≡ sets question.old 0 (field line.now 0) }
    ensures arguments_after { arguments.new ≡ sets arguments.old 0 (field line.now 1) }
    ensures input_after { input.new ≡ sets input.old 0 (field line.now 2) }
    ensures answer_after { answer.new ≡ sets answer.old 0 (field line.now 3) }
    ensures output_after { output.new ≡ sets output.old 0 (field line.now 4) }
{
    let first = read_field(line, 0, b'\t', &mut question[..]);
    let second = read_field(line, first, b'\t', &mut arguments[..]);
    let third = read_field(line, second, b'\t', &mut input[..]);
    let fourth = read_field(line, third, b'\t', &mut answer[..]);
    let end = read_field(line, fourth, b'\n', &mut output[..]);
    ends_line(line, end)
}

// Whether the list, the output and the numbers that a call left are those that its line says.
#[tactic(auto, unfolding(crate::specs::Lines::is_answer))]
pub fn is_answer(
    asked: Asked,
    list: &[u32; 1024],
    out: &[u8; 16640],
    answer: &[u8; 16640],
    output: &[u8; 16640],
) -> bool
    ensures { result ≡ is_answer asked list.now out.now answer.now output.now }
{
    same_words(&asked.numbers, asked.count, answer, 0)
        && is_listed(asked.count, asked.listed, list, answer)
        && is_output(asked.written, out, output)
}

// Whether a line ends at a place, and is not too long.
#[tactic(auto, unfolding(crate::specs::Lines::ends_line))]
fn ends_line(line: &[u8], at: usize) -> bool
    ensures { result ≡ ends_line line.now at }
{
    line.len() <= MOST_LINE && at == line.len()
}

// Puts the bytes of the field at a place of the line at the front of the output, and answers the
// place after the byte that ends it.
#[tactic(auto, unfolding(crate::specs::Lines::field_next))]
fn read_field(line: &[u8], from: usize, end: u8, into: &mut [u8]) -> usize
    ensures value { result ≡ field_next line.now from end }
    ensures into_after { into.new ≡ sets into.old 0 (field_bytes line.now from) }
{
    put_field(line, from, into);
    next_after(line, from, digits_at(line, from), end)
}

#[tactic(auto, using(crate::proofs::Laws::rest_digits, crate::proofs::Laws::rest_bytes, crate::proofs::Laws::nothing_at, ascii::proofs::Laws::run_le))]
fn put_field(line: &[u8], from: usize, into: &mut [u8])
    ensures { into.new ≡ sets into.old 0 (field_bytes line.now from) }
{
    if let Some(rest) = line.get(from..) {
        unhex(&rest[..hex_run(rest)], into);
    }
}

#[tactic(auto, using(crate::proofs::Laws::rest_digits, crate::proofs::Laws::digits_within))]
fn digits_at(line: &[u8], from: usize) -> usize
    ensures { result ≡ digits_at line.now from }
{
    match line.get(from..) {
        Some(rest) => hex_run(rest),
        None => 0,
    }
}

// The place after a field of n digits.
#[tactic(auto, unfolding(crate::specs::Lines::next_after))]
fn next_after(line: &[u8], from: usize, n: usize, end: u8) -> usize
    ensures { result ≡ next_after line.now from n end }
{
    if line.len() <= from || line.len() - from <= n {
        return NO_FIELD;
    }
    if n % 2 == 1 || line[from + n] != end {
        return NO_FIELD;
    }
    from + n + 1
}

// The numbers of the list stand behind the first ones of the answer, and behind them 0.
#[tactic(auto, unfolding(crate::specs::Lines::is_listed, crate::specs::Lines::filled_with))]
fn is_listed(count: u32, listed: u32, list: &[u32], answer: &[u8]) -> bool
    ensures { result ≡ is_listed count listed list.now answer.now }
{
    same_words(list, listed, answer, count)
        && is_filled(answer, 4 * (count as usize + listed as usize), 0)
        && is_filled(list, listed as usize, UNTOUCHED_WORD)
}

// Past what was written the output is as it was, and the line says nothing more.
#[tactic(auto, unfolding(crate::specs::Lines::is_output, crate::specs::Lines::filled_with))]
fn is_output(written: usize, out: &[u8], output: &[u8]) -> bool
    ensures { result ≡ is_output written out.now output.now }
{
    same_bytes(out, output, written)
        && is_filled(output, written, 0)
        && is_filled(out, written, UNTOUCHED)
}

// Whether the first n words are the little-endian ones of s from the word `at` on.
#[tactic(auto, unfolding(crate::specs::Lines::same_words))]
fn same_words(words: &[u32], n: u32, s: &[u8], at: u32) -> bool
    ensures { result ≡ same_words words.now n s.now at }
{
    (0..n).all(|i| word_of(words, i as usize) == u32_at(s, 4 * (at as usize + i as usize)))
}

// A word, or 0 past the end.
fn word_of(words: &[u32], at: usize) -> u32
    ensures { result ≡ get_or words.now at 0 }
{
    words.get(at).copied().unwrap_or(0)
}

// Whether the first n bytes are the same.
#[tactic(auto, unfolding(crate::specs::Lines::same_bytes))]
fn same_bytes(s: &[u8], t: &[u8], n: usize) -> bool
    ensures { result ≡ same_bytes s.now t.now n }
{
    (0..n).all(|i| byte_at(s, i) == byte_at(t, i))
}

// Whether every element from a place on is x.
fn is_filled<T: Copy + PartialEq>(s: &[T], from: usize, x: T) -> bool
    ensures { result ≡ list_all (λ y. T.eq y x) (drop from s.now) }
{
    s.iter().skip(from).all(|&y| y == x)
}
