// PIN entry in the model: a table of PINs and PUKs that an entry takes and gives back by value. An
// entry is a SET_PIN payload; messages are not known here.
#![tactic(auto)]

pub mod pin_type;
pub mod starts;

ghost use Rattle.std.specs.Prelude.{◌≡◌, ◌≤◌, length, take, Ok};
ghost use Rattle.pin_entry.specs.PinTable.{put, absent, empty, same_text, entry, info, no_info, granted, locked, usable, blocked, lacks_tries, awaited, expected, unblocked, accepted, failed, judged, entered, call};
ghost use Rattle.protocol.specs.Status.{failure};
ghost use Rattle.pin_entry.specs.PinTypes.{number_of};
ghost use Rattle.pin_entry.specs.Meaning.{row_of, table_of, put_at, entry_of, enter_of};
ghost use Rattle.pin_entry.specs.declared.PinAnswer.TheVariants.{Info};

use crate::pin_type::PinType;
use pairs::{ZeroSize, part_of};
use pin::pin_info::{LOCKED, NONE, PinInfo, UNLOCKED};
use pin::set_pin::{ENTER, MOST_TEXT, SetPin, read_with};
use protocol::Refusal;
use protocol::status::{FAILURE, NO_DEVICE_SUPPORT, SUCCESS};
use std::cmp::min;
use wire::{byte_at, put_bytes};

// A PIN or a PUK. The first `secret_length` bytes of `secret` count: fixed memory, as there is no
// heap. A row that is not present keeps its other members, as it stands in lent memory, so that it is
// no `Option`.
#[derive(Clone, Copy)]
pub struct PinRow {
    pub present: bool,
    pub enabled: bool,
    pub entered: bool,
    pub tries: u32,
    pub starting_tries: u32,
    pub secret: [u8; 32],
    pub secret_length: usize,
}

// A row for each of the types 1 to 17, in that order.
#[derive(Clone, Copy)]
pub struct PinTable {
    pub rows: [PinRow; ROWS],
}

// What an entry is answered.
#[derive(Clone, Copy)]
pub enum PinAnswer {
    // A status with PIN_INFO. Statuses are numbers, as in the modem's answers.
    Info { status: u32, info: PinInfo },
    // A status, and no payload.
    Failed(u32),
}

// The table after an entry, and the answer.
#[derive(Clone, Copy)]
pub struct Entered {
    pub table: PinTable,
    pub answer: Result<PinAnswer, Refusal>,
}

// The texts of an entry that was read.
#[derive(Clone, Copy)]
struct Texts<'a> {
    pin: &'a [u8],
    new_pin: &'a [u8],
    ghost short: { length new_pin.now ≤ 32 },
}

const ROWS: usize = 17;

// One entry: a SET_PIN payload, read strictly.
pub fn enter(mut table: PinTable, payload: &[u8]) -> Entered
    ensures { entry_of result ≡ enter_of (table_of table) payload.now }
{
    let answer = enter_payload(&mut table, payload);
    Entered { table, answer }
}

#[tactic(auto, using(crate::proofs::Asked::new_short), unfolding(crate::specs::Meaning::enter_of, crate::specs::Meaning::asked_of, crate::specs::PinTable::step))]
fn enter_payload(table: &mut PinTable, payload: &[u8]) -> Result<PinAnswer, Refusal>
    ensures { entry (table_of table.new) result ≡ enter_of (table_of table.old) payload.now }
{
    let (info, texts) = read_with(ZeroSize::Strict, payload)?;
    let texts = Texts {
        pin: part_of(payload, texts.pin),
        new_pin: part_of(payload, texts.new_pin),
    };
    Ok(enter_read(table, info, texts))
}

// An entry that was read: another operation, and a type that the table doesn't have, get 9.
#[tactic(auto, using(crate::proofs::Rows::no_type), unfolding(crate::specs::PinTable::entered))]
fn enter_read(table: &mut PinTable, info: SetPin, texts: Texts) -> PinAnswer
    ensures { entry (table_of table.new) (Ok result) ≡ entered (table_of table.old) (call info.pin_type info.pin_operation texts.entry.pin.now texts.entry.new_pin.now) }
{
    if info.pin_operation != ENTER {
        return PinAnswer::Failed(NO_DEVICE_SUPPORT);
    }
    match PinType::try_from(info.pin_type) {
        Ok(pin_type) if table.row(pin_type).present => judge(table, pin_type, texts),
        _ => PinAnswer::Failed(NO_DEVICE_SUPPORT),
    }
}

// An entry for a type that the table has.
#[tactic(auto, unfolding(crate::specs::PinTable::judged))]
fn judge(table: &mut PinTable, pin_type: PinType, texts: Texts) -> PinAnswer
    ensures { entry (table_of table.new) (Ok result) ≡ judged (table_of table.old) (number_of pin_type) texts.entry.pin.now texts.entry.new_pin.now }
{
    if !is_expected(table, pin_type) {
        return plain(FAILURE);
    }
    let row = table.row(pin_type);
    if row.tries == 0 {
        return blocked(table, pin_type);
    }
    if is_right(row, texts.pin) {
        accept(table, pin_type, texts.new_pin);
        return plain(SUCCESS);
    }
    fail(table, pin_type)
}

#[tactic(auto, unfolding(crate::specs::PinTable::expected))]
fn is_expected(table: &PinTable, pin_type: PinType) -> bool
    ensures { result ≡ expected (table_of table.now) (number_of pin_type) }
{
    match pin_type.pin() {
        Some(pin) => table.row(pin).lacks_tries(),
        None => table.row(pin_type).is_awaited(),
    }
}

fn is_right(row: PinRow, pin: &[u8]) -> bool
    ensures { result ≡ same_text (row_of row).secret pin.now }
{
    is_same(row.secret, min(row.secret_length, MOST_TEXT), pin)
}

// Whether the first n bytes are the text. All of them are looked at, whatever is found, so that the
// time it takes does not tell how many agree: no `==` of slices.
#[tactic(auto, using(crate::proofs::Text::none_yet, crate::proofs::Text::one_more, crate::proofs::Text::all_seen))]
fn is_same(secret: [u8; 32], n: usize, pin: &[u8]) -> bool
    requires { n ≤ 32 }
    ensures { result ≡ same_text (take n secret) pin.now }
{
    let mut same = true;
    for i in 0..n {
        same &= secret[i] == byte_at(pin, i);
    }
    same & (n == pin.len())
}

// A right entry: of a PIN, or of a PUK, which gives its PIN the new text.
#[tactic(auto, unfolding(crate::specs::PinTable::accepted))]
fn accept(table: &mut PinTable, pin_type: PinType, new_pin: &[u8])
    requires { length new_pin.now ≤ 32 }
    ensures { granted (table_of table.new) ≡ accepted (table_of table.old) (number_of pin_type) new_pin.now }
{
    let row = table.row(pin_type);
    let full = PinRow {
        tries: row.starting_tries,
        ..row
    };
    match pin_type.pin() {
        Some(pin) => {
            let next = unblock(table.row(pin), new_pin);
            table.put(pin_type, full);
            table.put(pin, next);
        }
        None => table.put(
            pin_type,
            PinRow {
                entered: true,
                ..full
            },
        ),
    }
}

// A wrong entry.
#[tactic(auto, unfolding(crate::specs::PinTable::failed))]
fn fail(table: &mut PinTable, pin_type: PinType) -> PinAnswer
    ensures { entry (table_of table.new) (Ok result) ≡ failed (table_of table.old) (number_of pin_type) }
{
    let row = table.row(pin_type);
    let tries = row.tries.saturating_sub(1);
    table.put(pin_type, PinRow { tries, ..row });
    if tries == 0 {
        return blocked(table, pin_type);
    }
    locked(pin_type, tries)
}

// The answer where the tries are gone.
#[tactic(auto, using(crate::proofs::Rows::none_absent), unfolding(crate::specs::PinTable::blocked))]
fn blocked(table: &PinTable, pin_type: PinType) -> PinAnswer
    ensures { entry (table_of table.now) (Ok result) ≡ blocked (table_of table.now) (number_of pin_type) }
{
    if let Some(puk) = pin_type.puk() {
        let row = table.row(puk);
        if row.is_usable() {
            return locked(puk, row.tries);
        }
    }
    plain(FAILURE)
}

// A status with no type.
fn plain(status: u32) -> PinAnswer
    ensures { result ≡ Info status no_info }
{
    PinAnswer::Info {
        status,
        info: PinInfo {
            pin_type: NONE,
            pin_state: UNLOCKED,
            remaining_attempts: 0,
        },
    }
}

// A type that is locked, with its tries.
fn locked(pin_type: PinType, tries: u32) -> PinAnswer
    ensures { result ≡ Info failure (info (number_of pin_type) locked tries) }
{
    PinAnswer::Info {
        status: FAILURE,
        info: PinInfo {
            pin_type: u32::from(pin_type),
            pin_state: LOCKED,
            remaining_attempts: tries,
        },
    }
}

impl PinTable {
    #[tactic(auto, using(crate::proofs::Rows::row_placed), unfolding(crate::specs::Meaning::table_of))]
    fn row(&self, pin_type: PinType) -> PinRow
        ensures { row_of result ≡ table_of self.now (number_of pin_type) }
    {
        self.rows[pin_type.place()]
    }

    #[tactic(auto, using(crate::proofs::Rows::row_put), unfolding(crate::specs::Meaning::table_of))]
    fn put(&mut self, pin_type: PinType, row: PinRow)
        ensures { table_of self.new ≡ put (table_of self.old) (number_of pin_type) (row_of row) }
    {
        self.rows[pin_type.place()] = row;
    }
}

impl PinRow {
    fn is_awaited(self) -> bool
        ensures { result ≡ awaited (row_of self) }
    {
        self.enabled && !self.entered
    }

    fn lacks_tries(self) -> bool
        ensures { result ≡ lacks_tries (row_of self) }
    {
        self.present && self.tries == 0
    }

    fn is_usable(self) -> bool
        ensures { result ≡ usable (row_of self) }
    {
        self.present && self.tries != 0
    }
}

// A table with no PIN and no PUK.
pub fn no_pins() -> PinTable
    ensures { table_of result ≡ empty }
{
    PinTable {
        rows: [absent_row(); ROWS],
    }
}

// The row of a type; an absent one for what is no type.
#[tactic(auto, using(crate::proofs::Rows::no_type))]
pub fn row_of(table: PinTable, pin_type: u32) -> PinRow
    ensures { row_of result ≡ table_of table pin_type }
{
    match PinType::try_from(pin_type) {
        Ok(pin_type) => table.row(pin_type),
        Err(_) => absent_row(),
    }
}

fn absent_row() -> PinRow
    ensures { row_of result ≡ absent }
{
    PinRow {
        present: false,
        enabled: false,
        entered: false,
        tries: 0,
        starting_tries: 0,
        secret: [0; 32],
        secret_length: 0,
    }
}

// The table with another row, by its number from 0; past the last nothing changes.
#[tactic(auto, using(crate::proofs::Rows::put_past))]
pub fn with_row_at(mut table: PinTable, number: usize, row: PinRow) -> PinTable
    ensures { table_of result ≡ put_at (table_of table) number (row_of row) }
{
    if number < ROWS {
        table.rows[number] = row;
    }
    table
}

// The row of a PIN after its right PUK.
fn unblock(row: PinRow, secret: &[u8]) -> PinRow
    requires { length secret.now ≤ 32 }
    ensures { row_of result ≡ unblocked (row_of row) secret.now }
{
    let bytes = text_of(secret);
    PinRow {
        entered: true,
        tries: row.starting_tries,
        secret: bytes,
        secret_length: secret.len(),
        ..row
    }
}

// The text at the front, zeros behind it.
#[tactic(auto, using(crate::proofs::Text::stored))]
fn text_of(text: &[u8]) -> [u8; 32]
    requires { length text.now ≤ 32 }
    ensures { take (length text.now) result ≡ text.now }
{
    let mut bytes = [0u8; 32];
    put_bytes(&mut bytes, 0, text);
    bytes
}
