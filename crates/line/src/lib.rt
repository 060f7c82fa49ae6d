// One entry of a snapshot, written into lent bytes at a place (document 01, "Quote and writing"). The answer is the place after
// it, and a byte past the end is left out, as in crate pen.
#![tactic(auto)]

ghost use Rattle.std.specs.Prelude.{◌+◌, ◌^◌, ◌≤◌, ◌<◌, eqb};
ghost use Rattle.text.specs.Text.{Wrote};
ghost use Rattle.chain.specs.Bytes.{field_bytes, bytes_of};
ghost use Rattle.line.specs.Entries.{by_field, entry_fields, Writable};

use book::Entry;
use orderid::OrderId;
use pen::{Byte, Day, Number, Price, Time};

// 37 on an order-depth channel, 346 on a price-depth one.
fn by_field(out: &mut [u8], at: usize, depth: u64, e: &Entry) -> usize
    requires { (at < 2 ^ 26) × Writable e.now }
    ensures { Wrote out.old at (field_bytes (by_field (eqb depth 0) e.now)) out.new result × (result ≤ at + 50) }
{
    if depth == 0 {
        let id = OrderId {
            by: e.by,
            more: e.more,
        };
        pen::field(out, at, 37, id)
    } else {
        pen::field(out, at, 346, Number(e.by))
    }
}

// An entry at its place: 269, 270, 271, 37 or 346, 272, 273, 290. sort is the byte of 269.
pub fn entry(out: &mut [u8], at: usize, depth: u64, sort: u8, place: u64, e: &Entry) -> usize
    requires { (at < 2 ^ 24) × (place < 10 ^ 18) × Writable e.now }
    ensures { Wrote out.old at (bytes_of (entry_fields depth sort place e.now)) out.new result × (result ≤ at + 350) }
{
    let a = pen::field(out, at, 269, Byte(sort));
    let b = pen::field(out, a, 270, Price(e.price));
    let d = pen::field(out, b, 271, Number(e.size));
    let f = by_field(out, d, depth, e);
    let g = pen::field(out, f, 272, Day(e.moment / moment::SPAN));
    let h = pen::field(out, g, 273, Time(e.moment % moment::SPAN));
    pen::field(out, h, 290, Number(place))
}
