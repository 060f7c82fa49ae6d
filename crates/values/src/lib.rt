// The values of tags (document 01, "Fields", first paragraph), read from their marks: the sort of an entry, its instrument, and
// what a place of a book holds.
#![tactic(auto)]

ghost use Rattle.std.specs.Prelude.{◌≡◌};
ghost use Rattle.tags.specs.ByTag.{by_tag};
ghost use Rattle.values.specs.Values.{bvmf, instrument_of, sort_of, by_of, moment_in, values_of};

use book::Entry;
use orderid::OrderId;
use tags::Values;

// A sort of 269 that is passed over; the others are book's bid, offer and J.
// Kept: a number and no enum, since it is the number that an update has for what it is of, and `sort_of` says it.
const OTHER: u64 = 3;

// 269: bid, offer, J, or another sort.
#[tactic(auto, unfolding(crate::specs::Values::sort_of))]
pub fn sort(text: &[u8]) -> Option<u64>
    ensures { result ≡ sort_of text.now }
{
    match text {
        [] => None,
        [b'0'] => Some(book::BID),
        [b'1'] => Some(book::OFFER),
        [b'J'] => Some(book::J),
        _ => Some(OTHER),
    }
}

// 207: BVMF, or absent.
#[tactic(auto, unfolding(crate::specs::Values::bvmf))]
fn market(text: &[u8]) -> bool
    ensures { result ≡ bvmf text.now }
{
    text.is_empty() || frame::same(text, b"BVMF")
}

// 48, beside 22 and 207.
#[tactic(auto, unfolding(crate::specs::Values::instrument_of, tags::specs::Slots::marked, tags::specs::Slots::slot_of))]
pub fn instrument(v: Values) -> Option<u64>
    ensures { result ≡ instrument_of (by_tag v.entry) }
{
    let id = digits::ranged(v.get(tags::INSTRUMENT), 18, 1, book::MOST_ID)?;
    let listed = frame::same(v.get(tags::SOURCE), b"8");
    if listed && market(v.get(tags::MARKET)) {
        Some(id)
    } else {
        None
    }
}

// 37 on an order-depth channel (0), 346 on a price-depth one.
#[tactic(auto, unfolding(crate::specs::Values::by_of, tags::specs::Slots::marked, tags::specs::Slots::slot_of))]
fn by(v: Values, depth: u64) -> Option<OrderId>
    ensures { result ≡ by_of depth (by_tag v.entry) }
{
    if depth == 0 {
        return orderid::read(v.get(tags::ORDER));
    }
    let by = digits::ranged(v.get(tags::ORDERS), 5, 1, 65535)?;
    Some(OrderId { by, more: 0 })
}

// 272 and 273.
#[tactic(auto, using(crate::proofs::Texts::moment_fits), unfolding(crate::specs::Values::moment_in, tags::specs::Slots::marked, tags::specs::Slots::slot_of))]
fn moment(v: Values) -> Option<u64>
    ensures { result ≡ moment_in (by_tag v.entry) }
{
    let day = moment::date(v.get(tags::DATE))?;
    let time = moment::time(v.get(tags::TIME))?;
    Some(day * moment::SPAN + time)
}

// The values of a place.
#[tactic(auto, unfolding(crate::specs::Values::values_of, tags::specs::Slots::marked, tags::specs::Slots::slot_of))]
pub fn values(v: Values, depth: u64) -> Option<Entry>
    ensures { result ≡ values_of depth (by_tag v.entry) }
{
    let price = price::read(v.get(tags::PRICE))?;
    let size = digits::ranged(v.get(tags::SIZE), 12, 1, 999999999999)?;
    let id = by(v, depth)?;
    let moment = moment(v)?;
    Some(Entry {
        price,
        size,
        by: id.by,
        more: id.more,
        moment,
    })
}
