// Dated quotes (document 01, "Quote and writing"): place 1 of each side with H and the heard moment, or why there is none.
#![tactic(auto)]

ghost use Rattle.std.specs.Prelude.{◌≡◌, ◌+◌, ◌≤◌, ◌<◌, length};
ghost use Rattle.book.specs.Canonical.{held_in};
ghost use Rattle.cells.specs.Cells.{side_size, side_at};
ghost use Rattle.store.specs.Meaning.{st, board_in};
ghost use Rattle.moment.specs.Moments.{moments};
ghost use Rattle.quote.specs.Numbers.{refusal_number};
ghost use Rattle.quote.specs.Quotes.{most_limit, top_of, aged_by, quote_at, quote_of};
ghost use Rattle.quote.specs.Ready.{Ready};

use book::Entry;
use heading::Heading;

// Place 1 of each side, if it is held, with H and the moment it was heard.
#[derive(Clone, Copy)]
pub struct Quote {
    pub number: u64,
    pub heard: u64,
    pub bid: Option<Entry>,
    pub offer: Option<Entry>,
}

// Why there is no quote: 17, 18, 20, 21, 22, 23, 24. 17 is of a store that is no board; no function here makes it.
#[derive(Clone, Copy, PartialEq, Eq)]
pub enum NoQuote {
    Unsound,
    BadArgument,
    NotFollowed,
    Waiting,
    NothingHeard,
    BeforeHeard,
    TooOld,
}

// The longest limit, in seconds.
pub const MOST_LIMIT: u64 = 86400;

// Nothing heard yet.
const NOTHING_HEARD: u64 = 22;

// Age below 0; age above the limit.
const BEFORE_HEARD: u64 = 23;

const TOO_OLD: u64 = 24;

impl From<NoQuote> for u64 {
    ghost from_gives = { λ why n. n ≡ refusal_number why };

    // Document 01's number of a refusal.
    fn from(why: NoQuote) -> u64 {
        match why {
            NoQuote::Unsound => store::BAD_STORE,
            NoQuote::BadArgument => store::BAD_ARGUMENT,
            NoQuote::NotFollowed => store::NOT_FOLLOWED,
            NoQuote::Waiting => store::WAITING,
            NoQuote::NothingHeard => NOTHING_HEARD,
            NoQuote::BeforeHeard => BEFORE_HEARD,
            NoQuote::TooOld => TOO_OLD,
        }
    }
}

// Place 1 of the side that stands at a place of the store.
#[tactic(auto, using(crate::proofs::Tops::top_none, crate::proofs::Tops::top_some))]
fn first_of(store: &[u64], at: usize) -> Option<Entry>
    requires { at + side_size ≤ length store.now }
    ensures { result ≡ top_of (held_in (side_at store.now at)) }
{
    if store[at] == 0 {
        return None;
    }
    Some(cells::load_entry(store, at + 1))
}

// Age below 0 is 23, above the limit 24; the limit is in seconds, the age in milliseconds.
fn aged(age: i64, limit: u64, q: Quote) -> Result<Quote, NoQuote>
    requires { limit ≤ most_limit }
    ensures { result ≡ aged_by age limit q }
{
    if age < 0 {
        return Err(NoQuote::BeforeHeard);
    }
    let most = (limit * 1000) as i64;
    if most < age {
        return Err(NoQuote::TooOld);
    }
    Ok(q)
}

// The quote of the instrument at index i, or of none.
fn quote_at(store: &[u64], h: Heading, i: usize, time: u64, limit: u64) -> Result<Quote, NoQuote>
    requires { Ready (st h store.now) × (i ≤ h.followed) × (time < moments) × (limit ≤ most_limit) }
    ensures { result ≡ quote_at i time limit (board_in (st h store.now)) }
{
    if h.followed <= i {
        return Err(NoQuote::NotFollowed);
    }
    if h.waits(i) {
        return Err(NoQuote::Waiting);
    }
    if h.number == 0 {
        return Err(NoQuote::NothingHeard);
    }
    let q = Quote {
        number: h.number,
        heard: h.heard,
        bid: first_of(store, store::BIDS + i * store::BOOK),
        offer: first_of(store, store::OFFERS + i * store::BOOK),
    };
    aged(moment::age(time, h.heard), limit, q)
}

// The quote of the instrument with this SecurityID, now a date and time shaped as tag 52.
#[tactic(auto, using(moment::proofs::Bounds::moment_lt), unfolding(crate::specs::Quotes::quote_of))]
pub fn quote_for(
    store: &[u64],
    h: Heading,
    id: u64,
    time: &[u8],
    limit: u64,
) -> Result<Quote, NoQuote>
    requires { Ready (st h store.now) }
    ensures { result ≡ quote_of id time.now limit (board_in (st h store.now)) }
{
    let now = moment::moment(time).ok_or(NoQuote::BadArgument)?;
    if !book::is_id(id) || MOST_LIMIT < limit {
        return Err(NoQuote::BadArgument);
    }
    let i = store::find(store, h, id);
    quote_at(store, h, i, now, limit)
}
