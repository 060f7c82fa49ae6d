// The desk's library (document 02, K11): what selling a lot down an instrument's bids brings, or buying it up the offers costs, dated by
// the quote that it rests on, as numbers in room that the caller lends. A refusal writes nothing there. It sees the books by what
// `backing` promises alone.
#![tactic(auto)]

ghost use Rattle.std.specs.Prelude.{◌≡◌, ◌≤◌, ◌<◌, length};
ghost use Rattle.std.proofs.lemmas.List.Edits.{sets};
ghost use Rattle.moment.specs.Moments.{moments};
ghost use Rattle.ask.specs.Ask.{room_after};
ghost use Rattle.lots.specs.Numbers.{no_lot_number};
ghost use Rattle.lots.specs.Lots.{lotted_of, lot_number};
ghost use Rattle.lots.specs.Rooms.{lot_size, sold_words, lot_words, in_room, FineLot, Dealt};

use quote::NoQuote;

// What a lot brings: the sum, the units that no place took, and the number and the moment of the quote.
#[derive(Clone, Copy)]
pub struct Sold {
    pub sum: i64,
    pub left: u64,
    pub number: u64,
    pub heard: u64,
}

// Why there is no lot: as there is no quote, its quantity is out of range, or a sum does not fit.
#[derive(Clone, Copy, PartialEq, Eq)]
pub enum NoLot {
    Quote(NoQuote),
    BadQuantity,
    Over,
}

impl From<NoQuote> for NoLot {
    ghost use Rattle.lots.specs.declared.NoLot.{NoLot};

    ghost from_gives = { λ why n. n ≡ NoLot.Quote why };

    // A refusal of the quote passes through.
    fn from(why: NoQuote) -> NoLot {
        NoLot::Quote(why)
    }
}

impl From<NoLot> for u64 {
    ghost from_gives = { λ why n. n ≡ no_lot_number why };

    // The answer number of a refusal.
    fn from(why: NoLot) -> u64 {
        match why {
            NoLot::Quote(q) => u64::from(q),
            NoLot::BadQuantity => u64::from(NoQuote::BadArgument),
            NoLot::Over => OVER,
        }
    }
}

// The most units of a lot.
pub const MOST_UNITS: u64 = 999999999;

// A lot is given.
const DONE: u64 = 0;

// A sum does not fit.
const OVER: u64 = 35;

// The numbers of a lot.
const LOT: usize = 5;

// The lot of so many units on a quote and the side behind it, dated by the quote, whose refusals come first.
#[tactic(auto, unfolding(crate::specs::Lots::lotted_of))]
fn lot(
    store: &[u64],
    buying: bool,
    id: u64,
    quantity: u64,
    time: &[u8],
    limit: u64,
) -> Result<Sold, NoLot>
    ensures { result ≡ lotted_of buying id quantity time.now limit store.now }
{
    let b = backing::quote(store, buying, id, time, limit)?;
    if !(1..=MOST_UNITS).contains(&quantity) {
        return Err(NoLot::BadQuantity);
    }
    let sale = proceeds::of_side(&b.side, quantity).ok_or(NoLot::Over)?;
    Ok(Sold {
        sum: sale.sum,
        left: sale.left,
        number: b.quote.number,
        heard: b.quote.heard,
    })
}

// A lot's five numbers.
fn put_lot(out: &mut [u64], s: Sold)
    requires { (lot_size ≤ length out.old) × (s.heard < moments) }
    ensures { out.new ≡ sets out.old 0 (sold_words s) }
{
    out[0] = s.number;
    ask::put_moment(out, 1, s.heard);
    out[3] = ask::bits(s.sum);
    out[4] = s.left;
}

// The answer of a lot, with its numbers in the room: 17 first, then room that is too short is 18, then the rest.
fn tell(out: &mut [u64], l: Result<Sold, NoLot>) -> u64
    requires { FineLot l }
    ensures value { result ≡ in_room (length out.old) (lot_number l) }
    ensures out_after { out.new ≡ room_after result (lot_words l) out.old }
{
    match l {
        Err(NoLot::Quote(NoQuote::Unsound)) => u64::from(NoQuote::Unsound),
        _ if out.len() < LOT => u64::from(NoQuote::BadArgument),
        Err(why) => u64::from(why),
        Ok(s) => {
            put_lot(out, s);
            DONE
        }
    }
}

// Kept: a number and no Result, since `selkavorn_sell` and `selkavorn_buy` alone call it, for C, and `Dealt` says the answer number.
// What selling a lot of the instrument with this SecurityID down its bids brings, or buying it up its offers costs, now a date and time
// shaped as tag 52, the limit in seconds: 17, 18, 20 to 24, 18 for the quantity, 35, else 0 and 5 numbers at the start of the room.
#[tactic(auto, using(crate::proofs::Fine::lot_fine), unfolding(crate::specs::Rooms::lot_answer, crate::specs::Rooms::lot_out))]
pub fn deal(
    store: &[u64],
    buying: bool,
    id: u64,
    quantity: u64,
    time: &[u8],
    limit: u64,
    out: &mut [u64],
) -> u64
    ensures { Dealt buying id quantity time.now limit out.old store.now result out.new }
{
    tell(out, lot(store, buying, id, quantity, time, limit))
}
