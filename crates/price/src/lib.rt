// Prices: tag 270 read to a signed whole number of hundred-millionths and written again without a needless zero, point or
// minus (document 01, "Fields" 270 and "Quote and writing"; document 02, K6).
#![tactic(auto)]

ghost use Rattle.std.specs.Prelude.{◌≡◌, ◌+◌, ◌-◌, ◌*◌, ◌^◌, ◌≤◌, ◌<◌, length, nat_abs};
ghost use Rattle.text.specs.Text.{Wrote};
ghost use Rattle.price.specs.Price.{most_decimals, unit, top, ahead, amount_of, price_of};
ghost use Rattle.price.specs.PriceText.{decimals, amount_text, price_text};

use holding::{DECIMALS, UNIT, WHOLES};

// How many bytes stand before the first x.
fn find(text: &[u8], x: u8) -> usize
    ensures { (result ≡ ahead x text.now) × (result ≤ length text.now) }
{
    text.iter().position(|b| *b == x).unwrap_or(text.len())
}

// Ten to the number of decimals that are missing.
// Kept: by cases and not by `holding`'s constant array: of cases the compiler makes one table, an array it stores at each call
// (docs/DECISIONS.md, 2026-11-16).
fn scale(n: usize) -> u64
    requires { n ≤ most_decimals }
    ensures { result ≡ 10 ^ (most_decimals - n) }
{
    match DECIMALS - n {
        0 => 1,
        1 => 10,
        2 => 100,
        3 => 1000,
        4 => 10000,
        5 => 100000,
        6 => 1000000,
        7 => 10000000,
        _ => 100000000,
    }
}

// Without its sign: digits, then nothing or a point and digits.
fn amount(text: &[u8]) -> Option<u64>
    ensures { result ≡ amount_of text.now }
{
    let p = find(text, b'.');
    let w = digits::digits(&text[..p], WHOLES)?;
    if p == text.len() {
        return Some(w * UNIT);
    }
    let q = p + 1;
    let f = digits::digits(&text[q..], DECIMALS)?;
    Some(w * UNIT + f * scale(text.len() - q))
}

// Tag 270: an optional minus, then an amount.
pub fn read(text: &[u8]) -> Option<i64>
    ensures { result ≡ price_of text.now }
{
    if text.is_empty() {
        return None;
    }
    if text[0] == b'-' {
        return Some(-(amount(&text[1..])? as i64));
    }
    Some(amount(text)? as i64)
}

// The decimals without the zeros at the end.
fn put_decimals(out: &mut [u8], at: usize, f: u64) -> usize
    requires { (at < 2 ^ 31) × (0 < f) × (f < unit) }
    ensures { Wrote out.old at (decimals most_decimals f) out.new result × (result ≤ at + most_decimals) }
{
    let mut k = DECIMALS;
    let mut m = f;
    while m % 10 == 0 {
        m /= 10;
        k -= 1;
    }
    text::put_fixed(out, at, k, m)
}

// An amount, shortest form.
#[tactic(auto, unfolding(crate::specs::PriceText::amount_text, crate::specs::PriceText::fraction_text))]
fn put_amount(out: &mut [u8], at: usize, m: u64) -> usize
    requires { (at < 2 ^ 30) × (m < top) }
    ensures { Wrote out.old at (amount_text m) out.new result × (result ≤ at + 19 + most_decimals) }
{
    let b = text::put_decimal(out, at, m / UNIT);
    let f = m % UNIT;
    if f == 0 {
        return b;
    }
    let d = text::put(out, b, b'.');
    put_decimals(out, d, f)
}

// A price, shortest form.
pub fn put(out: &mut [u8], at: usize, p: i64) -> usize
    requires { (at < 2 ^ 29) × (nat_abs p < top) }
    ensures { Wrote out.old at (price_text p) out.new result × (result ≤ at + 20 + most_decimals) }
{
    let m = p.unsigned_abs();
    if p < 0 {
        let b = text::put(out, at, b'-');
        return put_amount(out, b, m);
    }
    put_amount(out, at, m)
}
