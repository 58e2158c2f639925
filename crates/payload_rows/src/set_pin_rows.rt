// The rows of a SET_PIN payload, read strictly.
ghost use Rattle.pairs.specs.declared.ZeroSize.TheVariants.{Strict};
ghost use Rattle.pin.specs.SetPin.{read_with};
ghost use Rattle.rows.specs.Rows.{Put};
ghost use Rattle.payload_rows.specs.SetPins.{ListableTexts, number_rows, text_rows, set_pin_text};

use crate::range_rows::put_range_row;
use pairs::ZeroSize;
use pin::set_pin;
use pin::set_pin::{SetPin, SetPinTexts};
use rows::{put_refused, put_row, put_text};

#[tactic(auto, using(crate::proofs::SetPins::listable_texts), unfolding(crate::specs::SetPins::set_pin_text))]
pub fn put(payload: &[u8], out: &mut [u8], at: usize) -> usize
    ensures { Put out.old at (set_pin_text payload.now (read_with Strict payload.now)) out.new result }
{
    match set_pin::read_with(ZeroSize::Strict, payload) {
        Err(refusal) => put_refused(out, at, refusal),
        Ok((info, texts)) => {
            let numbers = put_text(out, at, b"field\tvalue\n");
            let pin = put_numbers(info, out, numbers);
            put_texts(texts, payload, out, pin)
        }
    }
}

fn put_numbers(info: SetPin, out: &mut [u8], at: usize) -> usize
    ensures { Put out.old at (number_rows info) out.new result }
{
    let operation = put_row(out, at, b"PinType", info.pin_type as u64);
    put_row(out, operation, b"PinOperation", info.pin_operation as u64)
}

fn put_texts(texts: SetPinTexts, payload: &[u8], out: &mut [u8], at: usize) -> usize
    requires { ListableTexts texts payload.now }
    ensures { Put out.old at (text_rows payload.now texts) out.new result }
{
    let second = put_range_row(out, at, b"Pin", payload, texts.pin);
    put_range_row(out, second, b"NewPin", payload, texts.new_pin)
}
