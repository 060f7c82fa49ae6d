// One field of a snapshot, written into lent bytes at a place (document 01, "Quote and writing"). Each answer is the place
// after what was written. A byte past the end is left out, as in crate text.
#![tactic(auto)]

ghost use Rattle.std.specs.Prelude.{ℕ, List, [], ◌∷◌, ◌++◌, ◌+◌, ◌^◌, ◌≤◌, ◌<◌, length, nat_abs};
ghost use Rattle.text.specs.Text.{fixed, decimal, Wrote};
ghost use Rattle.price.specs.Price.{top};
ghost use Rattle.price.specs.PriceText.{price_text};
ghost use Rattle.calendar.specs.Calendar.{days};
ghost use Rattle.moment.specs.Moments.{moments, date_text, time_text, moment_text};
ghost use Rattle.orderid.specs.OrderIds.{id_text};
ghost use Rattle.chain.specs.Fields.{field};
ghost use Rattle.chain.specs.Bytes.{field_bytes};
ghost use Rattle.pen.specs.Values.{number_short, fixed_short, byte_short, bytes_short, moment_short, day_short, time_short, price_short, id_short};

use orderid::OrderId;

const SOH: u8 = 1;

const EQUALS: u8 = b'=';

// What a field may hold.
pub trait Value {
    // The bytes of a value.
    ghost text: { Self → List ℕ };

    // Which values can be written.
    ghost fine: { Self → Type 0 };

    // The bytes of a value at a place.
    fn put(self, out: &mut [u8], at: usize) -> usize
        requires { (at < 2 ^ 27) × fine self }
        ensures { Wrote out.old at (text self) out.new result };

    // None is of more than 30.
    ghost short: { (v : Self) → fine v → length (text v) ≤ 30 };
}

// A whole number, shortest form.
#[derive(Clone, Copy)]
pub struct Number(pub u64);

impl Value for Number {
    ghost text = { λ v. decimal v.0 };

    ghost fine = { λ v. v.0 < 10 ^ 18 };

    ghost short = { λ v _. number_short v.0 };

    fn put(self, out: &mut [u8], at: usize) -> usize {
        text::put_decimal(out, at, self.0)
    }
}

// A number of so many digits, leading zeros too.
#[derive(Clone, Copy)]
pub struct Fixed {
    pub width: usize,
    pub number: u64,
}

impl Value for Fixed {
    ghost text = { λ v. fixed v.width v.number };

    ghost fine = { λ v. v.width ≤ 8 };

    ghost short = { λ v. fixed_short v.width v.number };

    fn put(self, out: &mut [u8], at: usize) -> usize {
        text::put_fixed(out, at, self.width, self.number)
    }
}

// One byte.
#[derive(Clone, Copy)]
pub struct Byte(pub u8);

impl Value for Byte {
    ghost text = { λ v. v.0 ∷ [] };

    ghost fine = { λ _. Unit {0} };

    ghost short = { λ v _. byte_short v.0 };

    fn put(self, out: &mut [u8], at: usize) -> usize {
        text::put(out, at, self.0)
    }
}

// Up to 16 bytes.
#[derive(Clone, Copy)]
pub struct Bytes<'a>(pub &'a [u8]);

impl<'a> Value for Bytes<'a> {
    ghost text = { λ v. v.0.now };

    ghost fine = { λ v. length v.0.now ≤ 16 };

    ghost short = { λ v. bytes_short v.0.now };

    fn put(self, out: &mut [u8], at: usize) -> usize {
        text::put_bytes(out, at, self.0)
    }
}

// A moment.
#[derive(Clone, Copy)]
pub struct Moment(pub u64);

impl Value for Moment {
    ghost text = { λ v. moment_text v.0 };

    ghost fine = { λ v. v.0 < moments };

    ghost short = { λ v _. moment_short v.0 };

    fn put(self, out: &mut [u8], at: usize) -> usize {
        moment::put_moment(out, at, self.0)
    }
}

// A date, by the number of its day.
#[derive(Clone, Copy)]
pub struct Day(pub u64);

impl Value for Day {
    ghost text = { λ v. date_text v.0 };

    ghost fine = { λ v. v.0 < days };

    ghost short = { λ v _. day_short v.0 };

    fn put(self, out: &mut [u8], at: usize) -> usize {
        moment::put_date(out, at, self.0)
    }
}

// A time of day.
#[derive(Clone, Copy)]
pub struct Time(pub u64);

impl Value for Time {
    ghost text = { λ v. time_text v.0 };

    ghost fine = { λ _. Unit {0} };

    ghost short = { λ v _. time_short v.0 };

    fn put(self, out: &mut [u8], at: usize) -> usize {
        moment::put_time(out, at, self.0)
    }
}

// A price.
#[derive(Clone, Copy)]
pub struct Price(pub i64);

impl Value for Price {
    ghost text = { λ v. price_text v.0 };

    ghost fine = { λ v. nat_abs v.0 < top };

    ghost short = { λ v _. price_short v.0 };

    fn put(self, out: &mut [u8], at: usize) -> usize {
        price::put(out, at, self.0)
    }
}

impl Value for OrderId {
    ghost text = { λ v. id_text v.by v.more };

    ghost fine = { λ _. Unit {0} };

    ghost short = { λ v _. id_short v.by v.more };

    fn put(self, out: &mut [u8], at: usize) -> usize {
        orderid::put_id(out, at, self.by, self.more)
    }
}

// A tag and '='.
fn put_tag(out: &mut [u8], at: usize, tag: u64) -> usize
    requires { (at < 2 ^ 27) × (tag < 1000) }
    ensures { Wrote out.old at (decimal tag ++ (61 ∷ [])) out.new result × (result ≤ at + 19) }
{
    let b = text::put_decimal(out, at, tag);
    text::put(out, b, EQUALS)
}

// A field: its tag, its value and SOH.
pub fn field<V: Value>(out: &mut [u8], at: usize, tag: u64, value: V) -> usize
    requires { (at < 2 ^ 26) × (tag < 1000) × V.fine value }
    ensures { Wrote out.old at (field_bytes (field tag (V.text value))) out.new result × (result ≤ at + 50) }
{
    let b = put_tag(out, at, tag);
    let d = value.put(out, b);
    text::put(out, d, SOH)
}
