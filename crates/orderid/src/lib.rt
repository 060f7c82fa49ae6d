// Order ids, 1 to 16 bytes of 33 to 126 each (document 01, "Fields": 37), held as two numbers. Each is a word of up to 8
// bytes in a base of 94 digits without a zero, so that the words of up to 8 bytes are the numbers from 1 without a hole,
// and those of exactly 8 bytes the upper end of them. So a held id is sound by comparisons alone (`id_sound`).
#![tactic(auto)]

ghost use Rattle.std.specs.Prelude.{◌≡◌, ◌+◌, ◌%◌, ◌^◌, ◌≤◌, ◌<◌, length};
ghost use Rattle.text.specs.Text.{Wrote};
ghost use Rattle.orderid.specs.OrderIds.{id_of, id_text, packed_of};
ghost use Rattle.orderid.specs.Words.{word_of, bytes_in};

// An id as two words; the second is 0 where the first has room for all its bytes.
#[derive(Clone, Copy)]
pub struct OrderId {
    pub by: u64,
    pub more: u64,
}

// The least byte of an id, and the greatest.
const FIRST: u8 = b'!';

const LAST: u8 = b'~';

// The word of at most 8 bytes; that of no bytes is 0.
#[tactic(auto, unfolding(crate::specs::Words::word_of))]
fn read_word(text: &[u8]) -> Option<u64>
    requires { length text.now ≤ 8 }
    ensures { result ≡ word_of text.now }
{
    let mut v = 0u64;
    for b in text {
        if *b < FIRST || LAST < *b {
            return None;
        }
        v = v * 94 + u64::from(*b - 32);
    }
    Some(v)
}

// An id of 1 to 16 bytes.
#[tactic(auto, using(crate::proofs::Steps::none, crate::proofs::Steps::long, crate::proofs::Steps::one_word, crate::proofs::Steps::two_parts))]
pub fn read(text: &[u8]) -> Option<OrderId>
    ensures { result ≡ id_of text.now }
{
    match text.len() {
        1..=8 => Some(OrderId {
            by: read_word(text)?,
            more: 0,
        }),
        9..=16 => Some(OrderId {
            by: read_word(&text[..8])?,
            more: read_word(&text[8..])?,
        }),
        _ => None,
    }
}

// A word's bytes in one number, the first lowest, zeros above the last.
pub fn packed(word: u64) -> u64
    ensures { result ≡ packed_of word }
{
    let mut m = word;
    let mut v = 0u64;
    for _k in 0..8usize {
        if m == 0 {
            return v;
        }
        v = v * 256 + (33 + (m - 1) % 94);
        m = (m - 1) / 94;
    }
    v
}

// The bytes of a packed word.
fn put_packed(out: &mut [u8], at: usize, p: u64) -> usize
    requires { at < 2 ^ 31 }
    ensures { Wrote out.old at (bytes_in 8 p) out.new result × (result ≤ at + 8) }
{
    let mut v = p;
    let mut a = at;
    while v != 0 {
        a = text::put(out, a, (v % 256) as u8);
        v /= 256;
    }
    a
}

// The bytes of an id.
pub fn put_id(out: &mut [u8], at: usize, a: u64, b: u64) -> usize
    requires { at < 2 ^ 30 }
    ensures { Wrote out.old at (id_text a b) out.new result × (result ≤ at + 16) }
{
    let i = put_packed(out, at, packed(a));
    put_packed(out, i, packed(b))
}
