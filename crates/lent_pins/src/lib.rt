// A table of PINs in 748 bytes of lent memory, 44 a row: whether the row is present, enabled and
// entered, and the length of its secret, a byte each; its tries and their starting number, 32 bits
// each; the secret, zero behind it. Memory that is too small, or with a flag, a length or tries that
// no call leaves, is refused and stays as it was.
#![tactic(auto)]

pub mod modems;

ghost use Rattle.std.specs.Prelude.{◌≡◌, ◌+◌, ◌≤◌, length};
ghost use Rattle.std.proofs.lemmas.List.Edits.{sets};
ghost use Rattle.protocol.specs.Verdict.{judge};
ghost use Rattle.pin_entry.specs.Meaning.{row_of, table_of, started};
ghost use Rattle.lent_pins.specs.LentPins.{row_at, table_in, row_rules, pins_verdict, row_bytes, table_bytes, make_in, kept_by, enter_in};

use pairs::{PairKind, is_unfit};
use pin::set_pin::MOST_TEXT;
use pin_entry::starts::{PinStarts, judge_starts, row_from};
use pin_entry::{Entered, PinAnswer, PinRow, PinTable, no_pins, with_row_at};
use protocol::{Reason, Refusal, Verdict, refuse_if};
use std::cmp::min;
use wire::{byte_at, put_byte, put_bytes, put_run, put_u32, u32_at};

// How many bytes a table takes.
pub const PINS_SIZE: usize = 748;

const ROW_SIZE: usize = 44;

const ROWS: usize = 17;

const ENABLED: usize = 1;

const ENTERED: usize = 2;

const SECRET_LENGTH: usize = 3;

const TRIES: usize = 4;

const STARTING_TRIES: usize = 8;

const SECRET: usize = 12;

// A table with no PIN entered and all tries at their starting numbers.
#[tactic(auto, unfolding(crate::specs::LentPins::make_in, pin_entry::specs::Meaning::made_of, protocol::specs::Verdict::fault_if))]
pub fn make(memory: &mut [u8], starts: PinStarts) -> Verdict
    ensures value { result ≡ (make_in memory.old starts.rows).verdict }
    ensures memory_after { memory.new ≡ (make_in memory.old starts.rows).memory }
{
    judge_starts(starts)?;
    refuse_if(memory.len() < PINS_SIZE, Reason::OutputTooSmall, PINS_SIZE)?;
    put_starts(memory, starts);
    Ok(())
}

// One entry: a SET_PIN payload, read strictly.
#[tactic(auto, using(crate::proofs::Places::room), unfolding(crate::specs::LentPins::enter_in))]
pub fn enter(memory: &mut [u8], payload: &[u8]) -> Result<PinAnswer, Refusal>
    ensures value { result ≡ (enter_in memory.old payload.now).answer }
    ensures memory_after { memory.new ≡ (enter_in memory.old payload.now).memory }
{
    judge_pins(memory)?;
    let entered = pin_entry::enter(table_at(memory), payload);
    keep(memory, entered)
}

// The table after an entry, put back where PIN_INFO is shown, and the answer.
fn keep(memory: &mut [u8], entered: Entered) -> Result<PinAnswer, Refusal>
    ensures value { result ≡ entered.answer }
    ensures memory_after { memory.new ≡ kept_by entered.answer (table_of entered.table) memory.old }
{
    if let Ok(PinAnswer::Info { .. }) = entered.answer {
        put_table(memory, entered.table);
    }
    entered.answer
}

// Puts the rows one after another at the front of the memory; with no table between, which would take a
// kilobyte of stack more.
#[tactic(auto, using(crate::proofs::Places::none_stored, crate::proofs::Places::start_stored), unfolding(crate::specs::LentPins::table_bytes))]
fn put_starts(memory: &mut [u8], starts: PinStarts)
    ensures { memory.new ≡ sets memory.old 0 (table_bytes (started starts.rows)) }
{
    for i in 0..ROWS {
        put_row(memory, i * ROW_SIZE, row_from(starts.rows[i]));
    }
}

// The verdict on the room, and then on the rows.
#[tactic(auto, using(pin_entry::proofs::Rows::none_judged, folds::proofs::Laws::fits_next, folds::proofs::Laws::fault_at), unfolding(crate::specs::LentPins::pins_verdict, crate::specs::LentPins::rows_verdict, protocol::specs::Verdict::fault_if))]
fn judge_pins(memory: &[u8]) -> Verdict
    ensures { result ≡ pins_verdict memory.now }
{
    refuse_if(memory.len() < PINS_SIZE, Reason::OutputTooSmall, PINS_SIZE)?;
    for i in 0..ROWS {
        judge_row(memory, i * ROW_SIZE)?;
    }
    Ok(())
}

// The verdict on the row at a place.
#[tactic(auto, unfolding(protocol::specs::Verdict::judge_from, protocol::specs::Verdict::first_of, protocol::specs::Verdict::fault_if))]
fn judge_row(memory: &[u8], at: usize) -> Verdict
    requires { at ≤ 748 }
    ensures { result ≡ judge (row_rules memory.now at) }
{
    let size = byte_at(memory, at + SECRET_LENGTH) as usize;
    let tries = u32_at(memory, at + TRIES);
    let starting_tries = u32_at(memory, at + STARTING_TRIES);
    refuse_if(1 < byte_at(memory, at), Reason::Contradiction, at)?;
    refuse_if(
        1 < byte_at(memory, at + ENABLED),
        Reason::Contradiction,
        at + ENABLED,
    )?;
    refuse_if(
        1 < byte_at(memory, at + ENTERED),
        Reason::Contradiction,
        at + ENTERED,
    )?;
    refuse_if(
        is_unfit(PairKind::Text, MOST_TEXT as u32, size),
        Reason::Contradiction,
        at + SECRET_LENGTH,
    )?;
    refuse_if(starting_tries < tries, Reason::Contradiction, at + TRIES)
}

#[tactic(auto, using(pin_entry::proofs::Rows::filled_none, pin_entry::proofs::Rows::filled_next))]
fn table_at(memory: &[u8]) -> PinTable
    requires { 748 ≤ length memory.now }
    ensures { table_of result ≡ table_in memory.now }
{
    let mut table = no_pins();
    for i in 0..ROWS {
        table = with_row_at(table, i, row_at(memory, i * ROW_SIZE));
    }
    table
}

#[tactic(auto, unfolding(crate::specs::LentPins::row_at))]
fn row_at(memory: &[u8], at: usize) -> PinRow
    requires { at + 44 ≤ length memory.now }
    ensures { row_of result ≡ row_at memory.now at }
{
    PinRow {
        present: byte_at(memory, at) != 0,
        enabled: byte_at(memory, at + ENABLED) != 0,
        entered: byte_at(memory, at + ENTERED) != 0,
        tries: u32_at(memory, at + TRIES),
        starting_tries: u32_at(memory, at + STARTING_TRIES),
        secret: secret_of(&memory[at + SECRET..at + ROW_SIZE]),
        secret_length: byte_at(memory, at + SECRET_LENGTH) as usize,
    }
}

// Not by copy_from_slice, whose way down to the bytes is x86-64's: the same module is for other boards.
#[tactic(auto, using(wire::proofs::Laws::sets_all))]
fn secret_of(bytes: &[u8]) -> [u8; 32]
    requires { length bytes.now ≡ 32 }
    ensures { result ≡ bytes.now }
{
    let mut secret = [0; 32];
    put_bytes(&mut secret, 0, bytes);
    secret
}

// Puts the table at the front of the memory.
#[tactic(auto, using(crate::proofs::Places::none_stored, crate::proofs::Places::row_stored), unfolding(crate::specs::LentPins::table_bytes, pin_entry::specs::Meaning::table_of))]
fn put_table(memory: &mut [u8], table: PinTable)
    ensures { memory.new ≡ sets memory.old 0 (table_bytes (table_of table)) }
{
    for i in 0..ROWS {
        put_row(memory, i * ROW_SIZE, table.rows[i]);
    }
}

// The first bytes of the secret, as many as count, and zeros behind them.
#[tactic(auto, using(crate::proofs::Places::row_put))]
fn put_row(memory: &mut [u8], at: usize, row: PinRow)
    requires { at ≤ 748 }
    ensures { memory.new ≡ sets memory.old at (row_bytes (row_of row)) }
{
    let n = min(row.secret_length, MOST_TEXT);
    put_byte(memory, at, row.present as u8);
    put_byte(memory, at + ENABLED, row.enabled as u8);
    put_byte(memory, at + ENTERED, row.entered as u8);
    put_byte(memory, at + SECRET_LENGTH, n as u8);
    put_u32(memory, at + TRIES, row.tries);
    put_u32(memory, at + STARTING_TRIES, row.starting_tries);
    put_run(memory, at + SECRET, &row.secret[..n], MOST_TEXT);
}
