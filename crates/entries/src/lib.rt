// What an entry of a group says (document 01, "Fields", first and third paragraph). The values that it needs are read
// from their marks; those that it doesn't need are not.
#![tactic(auto)]

ghost use Rattle.std.specs.Prelude.{None, ◌≡◌, ◌<◌, eqb, length, get_or};
ghost use Rattle.tags.specs.Slots.{text_at};
ghost use Rattle.tags.specs.ByTag.{by_tag};
ghost use Rattle.entries.specs.Entries.{book_entry, empty_all, empty_book, entry_in_x, shown_entry, entry_in_w, empties};

use book::Update;
use tags::Values;

// What an entry says: an update, or nothing where it is passed over; none where it breaches a rule.
pub type Said = Option<Option<Update>>;

// A bid or an offer in X.
#[tactic(auto, unfolding(crate::specs::Entries::book_entry, tags::specs::Slots::marked, tags::specs::Slots::slot_of))]
fn book_entry(v: Values, depth: u64, side: u64, action: u64) -> Said
    ensures { result ≡ book_entry depth side action (by_tag v.entry) }
{
    let place = digits::ranged(v.get(tags::POSITION), 5, 1, 65535)?;
    let who = values::instrument(v)?;
    // the deletes come after change
    let entry = if action <= book::CHANGE {
        values::values(v, depth)?
    } else {
        book::no_entry()
    };
    Some(Some(Update {
        who,
        what: side,
        action,
        place: place as usize,
        entry,
    }))
}

// Whether the tag of slot k does not stand in the entry.
fn absent(v: Values, k: usize) -> bool
    requires { k < 22 }
    ensures { result ≡ eqb (length (text_at v.entry.text.now (get_or v.entry.marks.now.spans k None))) 0 }
{
    v.get(k).is_empty()
}

// J in X: of one instrument, or for all.
fn empties(who: u64, what: u64) -> Said
    ensures { result ≡ empties who what }
{
    Some(Some(Update {
        who,
        what,
        action: book::NEW,
        place: 0,
        entry: book::no_entry(),
    }))
}

// J in X without 48: it is for all instruments, and neither 22 nor 207 may stand.
#[tactic(auto, unfolding(crate::specs::Entries::empty_all, tags::specs::Slots::marked, tags::specs::Slots::slot_of))]
fn empty_all(v: Values) -> Said
    ensures { result ≡ empty_all (by_tag v.entry) }
{
    if absent(v, tags::SOURCE) && absent(v, tags::MARKET) {
        empties(0, book::J_FOR_ALL)
    } else {
        None
    }
}

// J in X.
#[tactic(auto, unfolding(crate::specs::Entries::empty_book, tags::specs::Slots::marked, tags::specs::Slots::slot_of))]
fn empty_book(v: Values) -> Said
    ensures { result ≡ empty_book (by_tag v.entry) }
{
    if absent(v, tags::INSTRUMENT) {
        return empty_all(v);
    }
    empties(values::instrument(v)?, book::J)
}

// An entry of an X.
#[tactic(auto, unfolding(crate::specs::Entries::entry_in_x, tags::specs::Slots::marked, tags::specs::Slots::slot_of))]
pub fn in_x(v: Values, depth: u64) -> Said
    ensures { result ≡ entry_in_x depth (by_tag v.entry) }
{
    let action = digits::ranged(v.get(tags::ACTION), 1, 0, 4)?;
    match values::sort(v.get(tags::SORT))? {
        side @ (book::BID | book::OFFER) => book_entry(v, depth, side, action),
        book::J => empty_book(v),
        _ => Some(None),
    }
}

// A bid or an offer in a W for the instrument id.
#[tactic(auto, unfolding(crate::specs::Entries::shown_entry, tags::specs::Slots::marked, tags::specs::Slots::slot_of))]
fn shown_entry(v: Values, depth: u64, id: u64, side: u64) -> Said
    ensures { result ≡ shown_entry depth id side (by_tag v.entry) }
{
    let place = digits::ranged(v.get(tags::POSITION), 5, 1, 65535)?;
    let entry = values::values(v, depth)?;
    Some(Some(Update {
        who: id,
        what: side,
        action: book::NEW,
        place: place as usize,
        entry,
    }))
}

// An entry of a W for the instrument id.
#[tactic(auto, unfolding(crate::specs::Entries::entry_in_w, tags::specs::Slots::marked, tags::specs::Slots::slot_of))]
pub fn in_w(v: Values, depth: u64, id: u64) -> Said
    ensures { result ≡ entry_in_w depth id (by_tag v.entry) }
{
    match values::sort(v.get(tags::SORT))? {
        side @ (book::BID | book::OFFER) => shown_entry(v, depth, id, side),
        _ => Some(None),
    }
}
