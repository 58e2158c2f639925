// A list behind a pair: a count, and as many elements of one size. What stands in an element is
// judged where it is known.
#![tactic(auto)]

ghost use Rattle.std.specs.Prelude.{◌≡◌};
ghost use Rattle.protocol.specs.Verdict.{judge as judged};
ghost use Rattle.pairs.specs.Pair.{range_at};
ghost use Rattle.lists.specs.Lists.{absent_in, there, count_in, outside, list_rules, list_verdict, lists_verdict};

use pairs::{PAIR_SIZE, PairKind, Range, ZeroSize, judge, range_at};
use protocol::{Reason, Verdict, refuse_if};
use wire::u32_at;

// What lists of one kind are like.
#[derive(Clone, Copy)]
pub struct ListForm {
    // The most bytes.
    pub limit: u32,
    // The bytes of one without elements.
    pub least: u32,
    // Where the count stands, from the list's start.
    pub count_place: u32,
    // The fewest elements, and the most.
    pub fewest: u32,
    pub most: u32,
    // The bytes of an element.
    pub each: u32,
    // Whether a pair of size 0 is absent.
    pub optional: bool,
}

// The verdict on the pair at `place` of a payload with a fixed part, and on its list.
#[tactic(auto, unfolding(protocol::specs::Verdict::first_of, protocol::specs::Verdict::judge_from, protocol::specs::Verdict::fault_if))]
pub fn judge_list(
    zero_size: ZeroSize,
    payload: &[u8],
    fixed: u32,
    place: u32,
    form: ListForm,
) -> Verdict
    ensures { result ≡ list_verdict zero_size form fixed place payload.now }
{
    let at = place as usize;
    let pair = range_at(payload, at);
    judge(
        zero_size,
        PairKind::List,
        fixed,
        form.limit,
        at,
        payload.len(),
        pair,
    )?;
    if is_absent(form, pair) {
        return Ok(());
    }
    judge_count(payload, at, form, pair)
}

// Of the pairs that stand one behind another from `place` on: the verdict on those with the numbers from
// `first` to below `end`, and on their lists, up to the first fault. None of them may be absent,
// whatever their form says.
#[tactic(auto, unfolding(folds::specs::Folds::first_fault))]
pub fn judge_lists(
    zero_size: ZeroSize,
    payload: &[u8],
    fixed: u32,
    place: u32,
    first: u32,
    end: u32,
    form: ListForm,
) -> Verdict
    ensures { result ≡ lists_verdict zero_size (there form) fixed place payload.now first end }
{
    for i in first..end {
        let at = place as usize + PAIR_SIZE * i as usize;
        judge_there(zero_size, payload, fixed, at, form)?;
    }
    Ok(())
}

// How many elements the list has that was judged before.
pub fn judged_list_count(payload: &[u8], place: u32, form: ListForm) -> u32
    ensures { result ≡ count_in form payload.now (range_at payload.now place) }
{
    let pair = range_at(payload, place as usize);
    if is_absent(form, pair) {
        return 0;
    }
    u32_at(payload, pair.start as usize + form.count_place as usize)
}

// A pair whose list may not be absent.
#[tactic(auto, unfolding(protocol::specs::Verdict::first_of))]
fn judge_there(
    zero_size: ZeroSize,
    payload: &[u8],
    fixed: u32,
    place: usize,
    form: ListForm,
) -> Verdict
    ensures { result ≡ list_verdict zero_size (there form) fixed place payload.now }
{
    let pair = range_at(payload, place);
    judge(
        zero_size,
        PairKind::List,
        fixed,
        form.limit,
        place,
        payload.len(),
        pair,
    )?;
    judge_count(payload, place, form, pair)
}

// A list that is there: its least size, its count, and its size against its count.
#[tactic(auto, using(crate::proofs::Behind::product), unfolding(protocol::specs::Verdict::first_of, protocol::specs::Verdict::judge_from, protocol::specs::Verdict::fault_if))]
fn judge_count(payload: &[u8], place: usize, form: ListForm, pair: Range) -> Verdict
    ensures { result ≡ judged (list_rules (there form) place pair (count_in (there form) payload.now pair)) }
{
    refuse_if(pair.length < form.least, Reason::WrongSize, place)?;
    let count_place = pair.start as usize + form.count_place as usize;
    let count = u32_at(payload, count_place);
    let whole = form.least as usize + form.each as usize * count as usize;
    refuse_if(
        is_outside(form.fewest, form.most, count),
        Reason::WrongCount,
        count_place,
    )?;
    refuse_if(pair.length as usize != whole, Reason::WrongSize, place)
}

fn is_absent(form: ListForm, pair: Range) -> bool
    ensures { result ≡ absent_in form pair }
{
    form.optional && pair.length == 0
}

fn is_outside(fewest: u32, most: u32, count: u32) -> bool
    ensures { result ≡ outside fewest most count }
{
    count < fewest || most < count
}
