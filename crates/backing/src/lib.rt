// A quote of a raw store and the whole side behind it, by value (document 02, K11). Its contract speaks of the board: what rests on this
// crate looks at no number of the store, and has every refusal of a quote from here.
#![tactic(auto)]

ghost use Rattle.std.specs.Prelude.{◌≡◌, true, cond, ◌≤◌, ◌<◌, length};
ghost use Rattle.cells.specs.Cells.{side_at};
ghost use Rattle.store.specs.Layout.{store_size, bids_of, offers_of};
ghost use Rattle.sound.specs.Sound.{sound};
ghost use Rattle.backing.specs.Backing.{Backs};

use book::Side;
use quote::{NoQuote, Quote};

// A quote and the side behind it.
#[derive(Clone, Copy)]
pub struct Backed {
    pub quote: Quote,
    pub side: Side,
}

// The side of the instrument at index i: buying takes the offers, selling the bids.
fn load(store: &[u64], buying: bool, i: usize) -> Side
    requires { (store_size ≤ length store.now) × (i < 16) }
    ensures { result ≡ side_at store.now (cond buying (offers_of i) (bids_of i)) }
{
    let first = if buying { store::OFFERS } else { store::BIDS };
    cells::load_side(store, first + i * store::BOOK)
}

// The dated quote of the instrument with this SecurityID, now a date and time shaped as tag 52, the limit in seconds, with its offers to
// buy from, or its bids to sell to.
pub fn quote(
    store: &[u64],
    buying: bool,
    id: u64,
    time: &[u8],
    limit: u64,
) -> Result<Backed, NoQuote>
    ensures { Backs buying id time.now limit store.now result }
{
    if !sound::sound(store) {
        return Err(NoQuote::Unsound);
    }
    let h = store::load_heading(store);
    let quote = quote::quote_for(store, h, id, time, limit)?;
    let side = load(store, buying, store::find(store, h, id));
    Ok(Backed { quote, side })
}
