// One offset/size pair of a payload: judged as a reader meets it, and placed as a writer puts it.
// The texts of a record are judged in crate `texts`, a list behind a pair in `lists`.
#![tactic(auto)]

ghost use Rattle.std.specs.Prelude.{◌≡◌};
ghost use Rattle.std.proofs.lemmas.List.Edits.{sets};
ghost use Rattle.pairs.specs.Pair.{if_strict, range_at, part_of, unfit, verdict_of, padded, placed, shown_at, range_bytes};

use protocol::{Reason, Verdict, refuse_if};
use wire::{put_u32, u32_at};

// 01's pair. An accepted one shows `length` bytes of the payload from `start`; absent is (0, 0).
#[repr(C)]
#[derive(Clone, Copy)]
pub struct Range {
    pub start: u32,
    pub length: u32,
}

// The bytes of a pair.
pub const PAIR_SIZE: usize = 8;

// What a pair is of: a text has an even size.
#[derive(Clone, Copy)]
pub enum PairKind {
    Text,
    List,
}

// The reader's choice: a pair of size 0 is absent whatever its offset, or refused where it has one.
// What reads without a choice reads by the first.
#[derive(Clone, Copy)]
pub enum ZeroSize {
    Absent,
    Strict,
}

const ABSENT: Range = Range {
    start: 0,
    length: 0,
};

// The bytes of a payload that a range shows; none where it ends past the payload.
pub fn part_of(payload: &[u8], range: Range) -> &[u8]
    ensures { result.now ≡ part_of payload.now range }
{
    let start = range.start as usize;
    let end = start + range.length as usize;
    if payload.len() < end {
        return &payload[0..0];
    }
    &payload[start..end]
}

// Whether a size is over its limit, or odd for text.
pub fn is_unfit(kind: PairKind, limit: u32, size: usize) -> bool
    ensures { result ≡ unfit kind limit size }
{
    if (limit as usize) < size {
        return true;
    }
    match kind {
        PairKind::Text => size % 2 != 0,
        PairKind::List => false,
    }
}

// Where a writer puts `size` bytes that come next at `base`.
pub fn place_at(base: u32, size: u32) -> Range
    ensures { result ≡ placed base size }
{
    if size == 0 {
        return Range {
            start: 0,
            length: 0,
        };
    }
    Range {
        start: base,
        length: size,
    }
}

// The pair stored at a place.
pub fn put_range(out: &mut [u8], place: usize, pair: Range)
    ensures { out.new ≡ sets out.old place (range_bytes pair) }
{
    if out.len() <= place {
        return;
    }
    put_u32(out, place, pair.start);
    put_u32(out, place + 4, pair.length);
}

// The verdict on the pair that stands at `place` of a payload of `length` bytes.
#[tactic(auto, using(crate::proofs::Laws::not_strict), unfolding(crate::specs::Pair::verdict_of, crate::specs::Pair::rules, protocol::specs::Verdict::judge_from, protocol::specs::Verdict::first_of, protocol::specs::Verdict::fault_if))]
pub fn judge(
    zero_size: ZeroSize,
    kind: PairKind,
    fixed: u32,
    limit: u32,
    place: usize,
    length: usize,
    pair: Range,
) -> Verdict
    ensures { result ≡ verdict_of zero_size kind fixed limit place length pair }
{
    let size = pair.length;
    let end = pair.start as usize + size as usize;
    refuse_if(
        is_unfit(kind, limit, size as usize),
        Reason::WrongSize,
        place,
    )?;
    if size == 0 {
        let stray = if_strict(zero_size, pair.start != 0);
        return refuse_if(stray, Reason::OffsetWithZeroSize, place);
    }
    refuse_if(pair.start < fixed, Reason::OffsetInFixedPart, place)?;
    refuse_if(pair.start % 4 != 0, Reason::MisalignedOffset, place)?;
    refuse_if(length < end, Reason::PastEnd, place)
}

// A rule that is there under the strict choice only.
fn if_strict(zero_size: ZeroSize, broken: bool) -> bool
    ensures { result ≡ if_strict zero_size broken }
{
    match zero_size {
        ZeroSize::Absent => false,
        ZeroSize::Strict => broken,
    }
}

// The pair at a place of a payload: where all of it is there, one test serves.
#[inline(always)]
pub fn range_at(payload: &[u8], place: usize) -> Range
    ensures { result ≡ range_at payload.now place }
{
    if PAIR_SIZE <= payload.len() {
        if place <= payload.len() - PAIR_SIZE {
            let pair = &payload[place..place + PAIR_SIZE];
            return Range {
                start: u32_at(pair, 0),
                length: u32_at(pair, 4),
            };
        }
    }
    if payload.len() <= place {
        return ABSENT;
    }
    Range {
        start: u32_at(payload, place),
        length: u32_at(payload, place + 4),
    }
}

// The pair at a place as a reader shows it: without a size it has no offset either.
#[inline(always)]
pub fn shown_at(payload: &[u8], place: usize) -> Range
    ensures { result ≡ shown_at payload.now place }
{
    let pair = range_at(payload, place);
    place_at(pair.start, pair.length)
}

// A size with its padding, to a multiple of 4.
pub fn padded_size(size: u32) -> usize
    ensures { result ≡ padded size }
{
    (size as usize + 3) / 4 * 4
}
