// Numbers of a question, which are the words of its arguments, and those of its answer.
ghost use Rattle.std.specs.Prelude.{◌≡◌, ◌*◌, min, length, take};
ghost use Rattle.wire.specs.Numbers.{u16_at, u32_at};
ghost use Rattle.sample_lines.specs.Answers.{as_word, few_numbers, no_answer, plain_answer, written_answer};

use wire::{u16_at, u32_at};

// An answer: its numbers, of which the first `count` count, how many bytes of the output belong to
// it, and how many numbers of the list.
#[derive(Clone, Copy)]
pub struct Asked {
    pub numbers: [u32; 16],
    pub count: u32,
    pub written: usize,
    pub listed: u32,
}

pub fn word_at(arguments: &[u8], place: u32) -> u32
    ensures { result ≡ u32_at arguments.now (4 * place) }
{
    u32_at(arguments, 4 * (place as usize))
}

pub fn half_at(arguments: &[u8], place: u32) -> u16
    ensures { result ≡ u16_at arguments.now (4 * place) }
{
    u16_at(arguments, 4 * (place as usize))
}

// The lesser of two numbers.
pub fn least(a: usize, b: usize) -> usize
    ensures { result ≡ min a b }
{
    a.min(b)
}

// The front of what is lent: as much of it as the size says.
pub fn lent<T>(memory: &mut [T], size: u32) -> &mut [T]
    ensures { result.now ≡ take (min size (length memory.old)) memory.old }
{
    let n = least(size as usize, memory.len());
    &mut memory[..n]
}

// A number as a word; the largest word stands for all that are none.
pub fn short(n: usize) -> u32
    ensures { result ≡ as_word n }
{
    u32::try_from(n).unwrap_or(u32::MAX)
}

// The numbers of an answer that has three at most beside a refusal's number and place.
pub fn few(number: u32, place: usize, a: u32, b: u32, c: u32) -> [u32; 16]
    ensures { result ≡ few_numbers number place a b c }
{
    [
        number,
        short(place),
        a,
        b,
        c,
        0,
        0,
        0,
        0,
        0,
        0,
        0,
        0,
        0,
        0,
        0,
    ]
}

// An answer of numbers alone.
pub fn plain(numbers: [u32; 16]) -> Asked
    ensures { result ≡ plain_answer numbers }
{
    Asked {
        numbers,
        count: 16,
        written: 0,
        listed: 0,
    }
}

// An answer of numbers and bytes.
pub fn written(numbers: [u32; 16], length: usize) -> Asked
    ensures { result ≡ written_answer numbers length }
{
    Asked {
        numbers,
        count: 16,
        written: length,
        listed: 0,
    }
}

// The answer to what is no question: no line says that.
pub fn no_question() -> Asked
    ensures { result ≡ no_answer }
{
    plain(few(0xFFFF_FFFF, 0, 0, 0, 0))
}
