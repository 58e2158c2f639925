// What a table is made of: secrets and starting numbers, row by row, judged.
ghost use Rattle.std.specs.Prelude.{◌≡◌, ◌≤◌};
ghost use Rattle.protocol.specs.Verdict.{judge};
ghost use Rattle.pin_entry.specs.Meaning.{row_of, table_of, start_rules, starts_verdict, start_row, started, making_of, made_of};

use crate::{PinRow, PinTable, ROWS, absent_row, no_pins, with_row_at};
use pairs::{PairKind, is_unfit};
use pin::set_pin::MOST_TEXT;
use protocol::{Reason, Refusal, Verdict, refuse_if};

// A PIN or a PUK. `present` and `enabled` are 0 or 1; the first `secret_length` bytes of `secret`
// count. Of a row that is not present nothing else is used. Numbers for flags: C interface.
#[repr(C)]
#[derive(Clone, Copy)]
pub struct PinStart {
    pub present: u32,
    pub enabled: u32,
    pub starting_tries: u32,
    pub secret_length: u32,
    pub secret: [u8; 32],
}

// A row for each of the types 1 to 17, in that order.
#[repr(C)]
#[derive(Clone, Copy)]
pub struct PinStarts {
    pub rows: [PinStart; 17],
}

// The bytes of a row, and the places in it.
const ROW_SIZE: usize = 48;

const ENABLED: usize = 4;

const SECRET_LENGTH: usize = 12;

// A table with no PIN entered and all tries at their starting numbers.
#[tactic(auto, unfolding(crate::specs::Meaning::made_of))]
pub fn make(starts: PinStarts) -> Result<PinTable, Refusal>
    ensures { making_of result ≡ made_of starts.rows }
{
    judge_starts(starts)?;
    Ok(table_from(starts))
}

// The verdict on what a table is made of, row by row.
#[tactic(auto, using(crate::proofs::Rows::none_judged, folds::proofs::Laws::fits_next, folds::proofs::Laws::fault_at), unfolding(crate::specs::Meaning::starts_verdict))]
pub fn judge_starts(starts: PinStarts) -> Verdict
    ensures { result ≡ starts_verdict starts.rows }
{
    for i in 0..ROWS {
        judge_start(i * ROW_SIZE, starts.rows[i])?;
    }
    Ok(())
}

// The verdict on the row at a place.
#[tactic(auto, unfolding(protocol::specs::Verdict::judge_from, protocol::specs::Verdict::first_of, protocol::specs::Verdict::fault_if))]
fn judge_start(at: usize, start: PinStart) -> Verdict
    requires { at ≤ 768 }
    ensures { result ≡ judge (start_rules at start) }
{
    let unfit = is_unfit(
        PairKind::Text,
        MOST_TEXT as u32,
        start.secret_length as usize,
    );
    refuse_if(1 < start.present, Reason::OutsideTable, at)?;
    refuse_if(1 < start.enabled, Reason::OutsideTable, at + ENABLED)?;
    refuse_if(unfit, Reason::WrongSize, at + SECRET_LENGTH)
}

#[tactic(auto, using(crate::proofs::Rows::filled_none, crate::proofs::Rows::filled_next))]
fn table_from(starts: PinStarts) -> PinTable
    ensures { table_of result ≡ started starts.rows }
{
    let mut table = no_pins();
    for i in 0..ROWS {
        table = with_row_at(table, i, row_from(starts.rows[i]));
    }
    table
}

// The row that a table is made with.
pub fn row_from(start: PinStart) -> PinRow
    ensures { row_of result ≡ start_row start }
{
    if start.present == 0 {
        return absent_row();
    }
    let secret = start.secret;
    PinRow {
        present: true,
        enabled: start.enabled != 0,
        entered: false,
        tries: start.starting_tries,
        starting_tries: start.starting_tries,
        secret,
        secret_length: start.secret_length as usize,
    }
}
