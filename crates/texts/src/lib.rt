// The texts of a record: their pairs judged and laid out by rows. A row is the place of a pair and
// its limit; rows stand in field order. What stands in a text is not judged.
#![tactic(auto)]

ghost use Rattle.std.specs.Prelude.{◌≡◌, ◌≤◌, length, get_or};
ghost use Rattle.std.proofs.lemmas.List.Edits.{sets};
ghost use Rattle.wire.specs.Output.{fitted};
ghost use Rattle.protocol.specs.Verdict.{judge as judged};
ghost use Rattle.pairs.specs.Pair.{range, padded, range_bytes};
ghost use Rattle.texts.specs.Texts.{ranges_at, all_shown, texts_verdict, size_rules, start_of, laid_at};

use pairs::{
    PairKind, Range, ZeroSize, is_unfit, judge, padded_size, place_at, put_range, range_at,
    shown_at,
};
use protocol::{Reason, Verdict, refuse_if};
use std::cmp::min;
use wire::put_run;

// The verdict on the pairs of a payload with a fixed part.
#[tactic(auto, using(crate::proofs::Rows::row_passed, crate::proofs::Rows::row_decides, crate::proofs::Rows::rows_end))]
pub fn judge_texts(zero_size: ZeroSize, payload: &[u8], fixed: u16, rows: &[[u32; 2]]) -> Verdict
    ensures { result ≡ texts_verdict zero_size fixed (length payload.now) rows.now (ranges_at payload.now rows.now) }
{
    for i in 0..rows.len() {
        let place = wide(rows[i][0]);
        let pair = range_at(payload, place);
        judge(
            zero_size,
            PairKind::Text,
            fixed as u32,
            rows[i][1],
            place,
            payload.len(),
            pair,
        )?;
    }
    Ok(())
}

// The range of a text by its number, in a payload whose pairs were judged before; absent without a
// size, and past the last row.
#[inline(always)]
pub fn judged_text(payload: &[u8], rows: &[[u32; 2]], number: u8) -> Range
    ensures { result ≡ get_or (all_shown (ranges_at payload.now rows.now)) number (range 0 0) }
{
    let i = number as usize;
    if i < rows.len() {
        return shown_at(payload, wide(rows[i][0]));
    }
    Range {
        start: 0,
        length: 0,
    }
}

// The verdict on the sizes of texts to be written, one for each row.
#[tactic(auto, using(crate::proofs::Rows::size_passed, crate::proofs::Rows::size_decides, crate::proofs::Rows::sizes_ended))]
pub fn judge_sizes(rows: &[[u32; 2]], sizes: &[usize]) -> Verdict
    ensures { result ≡ judged (size_rules rows.now sizes.now) }
{
    for i in 0..min(rows.len(), sizes.len()) {
        let unfit = is_unfit(PairKind::Text, rows[i][1], sizes[i]);
        refuse_if(unfit, Reason::WrongSize, wide(rows[i][0]))?;
    }
    Ok(())
}

// Where a text goes by its number: behind the fixed part and the texts before it. Where they all
// end, for the number past the last.
#[tactic(auto, using(crate::proofs::Rows::start_next))]
pub fn start_of(fixed: u16, sizes: &[u16], number: u8) -> u32
    ensures { result ≡ start_of fixed sizes.now number }
{
    let mut base = fixed as u32;
    for i in 0..number {
        base += padded_size(size_at(sizes, i)) as u32;
    }
    base
}

// The pair of a text, at `place`.
pub fn put_pair(out: &mut [u8], place: usize, fixed: u16, sizes: &[u16], number: u8)
    ensures { out.new ≡ sets out.old place (range_bytes (laid_at fixed sizes.now number)) }
{
    let pair = place_at(start_of(fixed, sizes, number), size_at(sizes, number));
    put_range(out, place, pair);
}

// The bytes of a text, with its padding.
pub fn put_text(out: &mut [u8], fixed: u16, sizes: &[u16], number: u8, text: &[u8])
    ensures { out.new ≡ sets out.old (start_of fixed sizes.now number) (fitted (padded (get_or sizes.now number 0)) text.now) }
{
    let room = padded_size(size_at(sizes, number));
    put_run(out, start_of(fixed, sizes, number) as usize, text, room);
}

// 0 past the last.
fn size_at(sizes: &[u16], number: u8) -> u32
    ensures { (result ≡ get_or sizes.now number 0) × (result ≤ 65535) }
{
    let i = number as usize;
    if i < sizes.len() { sizes[i] as u32 } else { 0 }
}

fn wide(x: u32) -> usize
    ensures { result ≡ x }
{
    x as usize
}
