// A row for a text that an accepted payload shows as a range of it.
ghost use Rattle.pairs.specs.Claims.{shown_in};
ghost use Rattle.rows.specs.Rows.{Put, text_row};
ghost use Rattle.payload_rows.specs.Ranges.{Listable};

use pairs::{Range, part_of};
use rows::put_text_row;

#[tactic(auto, using(pairs::proofs::Laws::part_shown))]
pub fn put_range_row(out: &mut [u8], at: usize, name: &[u8], payload: &[u8], range: Range) -> usize
    requires { Listable range payload.now }
    ensures { Put out.old at (text_row name.now (shown_in payload.now range)) out.new result }
{
    put_text_row(out, at, name, part_of(payload, range))
}
