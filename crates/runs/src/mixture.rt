// A recorded mixture of fragments of four messages, strays, repeats and noise, fed to one assembly
// piece after piece: how each is answered, and from which pieces a message comes out.
use crate::Refused;
use assembler::{Answer, Progress, feed_in_place};
use message::first_length;
use protocol::Refusal;
use std::io::{self, Write};
use wire::u32_at;

// A, an indication of 25 bytes in three fragments.
const A0: &[u8] =
    b"\x07\x00\x00\x80\x36\x00\x00\x00\x00\x00\x00\x00\x03\x00\x00\x00\x00\x00\x00\x00\xA2\x89\xCC\x33\xBC\xBB\x8B\x4F\xB6\xB0\x13\x3E\xC2\xAA\xE6\xDF\x09\x00\x00\x00\x19\x00\x00\x00loggerhead";

const A1: &[u8] =
    b"\x07\x00\x00\x80\x1C\x00\x00\x00\x00\x00\x00\x00\x03\x00\x00\x00\x01\x00\x00\x00 17 came";

const A2: &[u8] =
    b"\x07\x00\x00\x80\x1B\x00\x00\x00\x00\x00\x00\x00\x03\x00\x00\x00\x02\x00\x00\x00 ashore";

// B, a reply with transaction 7 of 19 bytes in two fragments.
const B0: &[u8] =
    b"\x03\x00\x00\x80\x3B\x00\x00\x00\x07\x00\x00\x00\x02\x00\x00\x00\x00\x00\x00\x00\xA2\x89\xCC\x33\xBC\xBB\x8B\x4F\xB6\xB0\x13\x3E\xC2\xAA\xE6\xDF\x0A\x00\x00\x00\x00\x00\x00\x00\x13\x00\x00\x00tide turns ";

const B1: &[u8] =
    b"\x03\x00\x00\x80\x1C\x00\x00\x00\x07\x00\x00\x00\x02\x00\x00\x00\x01\x00\x00\x00at 04:10";

// A stray with B's transaction: it says that B has three fragments.
const B1_OF_3: &[u8] =
    b"\x03\x00\x00\x80\x1C\x00\x00\x00\x07\x00\x00\x00\x03\x00\x00\x00\x01\x00\x00\x00at 05:50";

// C, a reply of 6 bytes in four fragments, none full and two without information.
const C0: &[u8] =
    b"\x03\x00\x00\x80\x30\x00\x00\x00\x08\x00\x00\x00\x04\x00\x00\x00\x00\x00\x00\x00\xA2\x89\xCC\x33\xBC\xBB\x8B\x4F\xB6\xB0\x13\x3E\xC2\xAA\xE6\xDF\x0A\x00\x00\x00\x00\x00\x00\x00\x06\x00\x00\x00";

const C1: &[u8] =
    b"\x03\x00\x00\x80\x18\x00\x00\x00\x08\x00\x00\x00\x04\x00\x00\x00\x01\x00\x00\x00nest";

const C2: &[u8] =
    b"\x03\x00\x00\x80\x14\x00\x00\x00\x08\x00\x00\x00\x04\x00\x00\x00\x02\x00\x00\x00";

const C3: &[u8] =
    b"\x03\x00\x00\x80\x16\x00\x00\x00\x08\x00\x00\x00\x04\x00\x00\x00\x03\x00\x00\x00 5";

// D, a reply of 40 bytes, for which the output has no room.
const D0: &[u8] =
    b"\x03\x00\x00\x80\x45\x00\x00\x00\x09\x00\x00\x00\x02\x00\x00\x00\x00\x00\x00\x00\xA2\x89\xCC\x33\xBC\xBB\x8B\x4F\xB6\xB0\x13\x3E\xC2\xAA\xE6\xDF\x0A\x00\x00\x00\x00\x00\x00\x00\x28\x00\x00\x00the river gauge went ";

const D1: &[u8] =
    b"\x03\x00\x00\x80\x27\x00\x00\x00\x09\x00\x00\x00\x02\x00\x00\x00\x01\x00\x00\x00under at high water";

const NOISE: &[u8] = b"\x2A\x00\xFF\x80\x07\x03\x14";

const MIXTURE: [&[u8]; 28] = [
    // A stray, then A and B in turns: neither comes out.
    A1, A0, A1, B0, A2, B1,
    // A fragment of A fed twice is refused, and A doesn't go on after it.
    A0, A1, A1, A2,
    // Noise ends A; then A comes out, from its first fragment on.
    A0, NOISE, A0, A1, A2,
    // A stray with B's transaction doesn't join; B comes out where A was begun and dropped for it.
    B0, B1_OF_3, B1, A0, B0, B1,
    // Where the output has no room for D, D is gone.
    D0, D1, D1,
    // Fragments that are not full.
    C0, C1, C2, C3,
];

pub fn print_mixture(rt: HostRuntime) -> io::Result<()> {
    let mut progress = Progress::none();
    let mut bytes = [0u8; 4096];
    let mut out = [0u8; 32];
    // The position of the last piece with number 0.
    let mut first = 0;
    println!(rt; "\npiece\ttransaction\tfragment\tinformation\tanswer")?;
    for (position, piece) in MIXTURE.iter().enumerate() {
        if u32_at(piece, 16) == 0 {
            first = position;
        }
        print!(rt; "{position}\t")?;
        print_piece(rt, piece)?;
        let fed = feed_in_place(progress, &mut bytes, piece, &mut out);
        progress = fed.progress;
        print_answer(rt, fed.answer, first, position, &out)?;
    }
    Ok(())
}

fn print_piece(rt: HostRuntime, piece: &[u8]) -> io::Result<()> {
    if piece.len() < 20 {
        return print!(rt; "-\t-\t-\t");
    }
    let number = u32_at(piece, 16);
    print!(rt; "{}\t{number} of {}\t", u32_at(piece, 8), u32_at(piece, 12))?;
    if let Some(information) = piece.get(header_length(piece)..) {
        print_quoted(rt, information)?;
    }
    print!(rt; "\t")
}

// The information of a fragment is all behind its header, which is longer in the first one.
fn header_length(piece: &[u8]) -> usize {
    if u32_at(piece, 16) == 0 {
        first_length(u32_at(piece, 0))
    } else {
        20
    }
}

fn print_answer(
    rt: HostRuntime,
    answer: Result<Answer, Refusal>,
    first: usize,
    position: usize,
    out: &[u8],
) -> io::Result<()> {
    match answer {
        Ok(Answer::Pending { dropped }) => println!(rt; "waits{}", note(dropped)),
        Ok(
            Answer::Complete {
                length,
                dropped,
                ..
            },
        ) => {
            print!(rt; "complete: ")?;
            if let Some(information) = out.get(..length) {
                print_quoted(rt, information)?;
            }
            println!(rt; " from pieces {first} to {position}{}", note(dropped))
        }
        Err(refusal) => println!(rt; "{}", Refused(refusal)),
    }
}

fn note(dropped: bool) -> &'static str {
    if dropped { ", another dropped" } else { "" }
}

fn print_quoted(rt: HostRuntime, text: &[u8]) -> io::Result<()> {
    print!(rt; "\"")?;
    rt.stdout().write_all(text)?;
    print!(rt; "\"")
}
