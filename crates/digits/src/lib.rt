// The reader of digits. Every number in a value is read here; its width is a parameter, and one law over the width bounds
// every field (document 01, "Fields": whole numbers). A field's tag is read by `chain::tag_at`, which finds the '=' behind
// it in the same loop; its meaning is `ranged` of the bytes before '=', shown by the laws of this crate. What a digit is worth
// is known here alone.
// Up to three digits are read one by one, more of them four at a time (document 02, K3). How this is cut into functions was measured:
// docs/PROVING.md says what the compiler makes of it.
#![tactic(auto)]

ghost use Rattle.std.specs.Prelude.{◌≡◌, ◌+◌, ◌-◌, ◌*◌, ◌/◌, ◌%◌, ◌^◌, ◌<◌, ◌≤◌, ◌&&◌, [], ◌∷◌, ◌++◌, map, length, take, drop, replicate, if◌then◌else◌, ◌==◌, bit_and, bit_xor, nat_eq, nat_le, slice_index};
ghost use Rattle.digits.specs.Digits.{digits_of, whole_of, ranged_of};

// As many digits as are sure to fit 64 bits with one more.
const WIDEST: usize = 18;

// Up to so many digits are read one by one.
const FEW: usize = 3;

// No number: above every one of 18 digits.
const NONE: u64 = u64::MAX;

// '0'.
const ZERO: u64 = b'0' as u64;

// A word is four bytes as one number, the first the lowest. A byte times EACH is a word of four such bytes.
const EACH: u64 = 0x0101_0101;

// One more than the greatest word.
const WORDS: u64 = 0x1_0000_0000;

// Four bytes that are '0'.
const ZEROS: u64 = ZERO * EACH;

// The upper four bits of each byte.
const UPPER: u64 = 240 * EACH;

// Six in each byte: of 0 to 15 those up to 9 have no upper bit with six added, 10 and more have.
const SIXES: u64 = 6 * EACH;

// The upper four bits of each byte of two words, the second in the upper half of a number.
const UPPER_BOTH: u64 = UPPER + UPPER * WORDS;

// Six in each byte of two words.
const SIXES_BOTH: u64 = SIXES + SIXES * WORDS;

// A word of digits times this has, from its second byte on, ten times each digit and the next one, a byte each.
const TENS: u64 = 10 * 256 + 1;

// Where the two pairs of digits stand, once its lowest byte is dropped: the first and the third byte.
const PAIRS: u64 = 0x00ff_00ff;

// These pairs times this have, in the third and fourth byte, a hundred times the first pair and the second.
const HUNDREDS: u64 = 100 * 65536 + 1;

// What a byte is worth: '0' to '9' 0 to 9, every other byte more.
pub fn worth(b: u8) -> u64
    ensures { result ≡ bit_xor b 48 }
{
    u64::from(b) ^ ZERO
}

// The word of what four bytes are worth.
fn word(a: u8, b: u8, c: u8, d: u8) -> u64
    ensures { (result < 2 ^ 32) × (result % 256 ≡ bit_xor a 48) × (result / 256 % 256 ≡ bit_xor b 48) × (result / 65536 % 256 ≡ bit_xor c 48) × (result / 16777216 ≡ bit_xor d 48) }
{
    (a as u64 + b as u64 * 256 + c as u64 * 65536 + d as u64 * 16777216) ^ ZEROS
}

// The number that the four digits of a word write.
fn four(w: u64) -> u64
    requires { w < 2 ^ 32 }
    ensures { result ≡ bit_and (w * 2561 / 256) 0x00ff_00ff * 6553601 / 65536 % 65536 }
{
    let pairs = (w * TENS / 256) & PAIRS;
    pairs * HUNDREDS / 65536 % 65536
}

// What the four bytes of a word write, if each is worth a digit.
fn written(w: u64) -> Option<u64>
    requires { w < 2 ^ 32 }
    ensures { result ≡ digits_of 4 ((w % 256 + 48) ∷ (w / 256 % 256 + 48) ∷ (w / 65536 % 256 + 48) ∷ (w / 16777216 + 48) ∷ []) }
{
    if (w & UPPER) | ((w + SIXES) & UPPER) != 0 {
        return None;
    }
    Some(four(w))
}

// What the eight bytes of two words write. Both words are tested at once; the sum wraps only where the last byte has an upper bit,
// which the first test finds.
fn both(a: u64, b: u64) -> Option<u64>
    requires { (a < 2 ^ 32) × (b < 2 ^ 32) }
    ensures { result ≡ digits_of 8 ((a % 256 + 48) ∷ (a / 256 % 256 + 48) ∷ (a / 65536 % 256 + 48) ∷ (a / 16777216 + 48) ∷ (b % 256 + 48) ∷ (b / 256 % 256 + 48) ∷ (b / 65536 % 256 + 48) ∷ (b / 16777216 + 48) ∷ []) }
{
    let w = a + b * WORDS;
    let more = w.wrapping_add(SIXES_BOTH);
    if (w & UPPER_BOTH) | (more & UPPER_BOTH) != 0 {
        return None;
    }
    Some(four(a) * 10000 + four(b))
}

// The word of the first bytes of a text, at most four: zeros come before them, and the bytes after them go.
fn front(text: &[u8], count: usize) -> u64
    requires { (count ≤ 4) × (4 ≤ length text.now) }
    ensures { (result < 2 ^ 32) × ((result % 256 + 48) ∷ (result / 256 % 256 + 48) ∷ (result / 65536 % 256 + 48) ∷ (result / 16777216 + 48) ∷ [] ≡ map (λ b. bit_xor b 48 + 48) (replicate (4 - count) 48 ++ take count text.now)) }
{
    let w = word(text[0], text[1], text[2], text[3]);
    (w << (32 - 8 * count)) % WORDS
}

// The first digits, at most four.
fn first(text: &[u8], count: usize) -> Option<u64>
    requires { (count ≤ 4) × (4 ≤ length text.now) }
    ensures { result ≡ digits_of 4 (replicate (4 - count) 48 ++ take count text.now) }
{
    written(front(text, count))
}

// The four digits from a place on.
fn next(text: &[u8], at: usize) -> Option<u64>
    requires { at + 4 ≤ length text.now }
    ensures { result ≡ digits_of 4 (take 4 (drop at text.now)) }
{
    written(word(text[at], text[at + 1], text[at + 2], text[at + 3]))
}

// 1 to 3 digits.
fn short(text: &[u8]) -> Option<u64>
    requires { (1 ≤ length text.now) × (length text.now ≤ 3) }
    ensures { result ≡ digits_of 18 text.now }
{
    let n = text.len();
    let a = worth(text[0]);
    if 9 < a {
        return None;
    }
    if n == 1 {
        return Some(a);
    }
    let b = worth(text[1]);
    if 9 < b {
        return None;
    }
    if n == 2 {
        return Some(a * 10 + b);
    }
    let c = worth(text[2]);
    if 9 < c {
        return None;
    }
    Some((a * 10 + b) * 10 + c)
}

// 4 to 8 digits: those before the last four, and the last four.
fn middle(text: &[u8]) -> Option<u64>
    requires { (4 ≤ length text.now) × (length text.now ≤ 8) }
    ensures { result ≡ digits_of 18 text.now }
{
    let k = text.len() - 4;
    let a = front(text, k);
    let b = word(text[k], text[k + 1], text[k + 2], text[k + 3]);
    both(a, b)
}

// 4 digits or more: the first one to four, then four a turn.
fn long(text: &[u8]) -> Option<u64>
    requires { (4 ≤ length text.now) × (length text.now ≤ 18) }
    ensures { result ≡ digits_of 18 text.now }
{
    let n = text.len();
    let k = (n - 1) % 4 + 1;
    let mut v = first(text, k)?;
    let mut i = k;
    while i < n {
        v = v * 10000 + next(text, i)?;
        i += 4;
    }
    Some(v)
}

// 4 to 18 digits: `long` would do for all, and `middle` takes less.
fn many(text: &[u8]) -> Option<u64>
    requires { (4 ≤ length text.now) × (length text.now ≤ 18) }
    ensures { result ≡ digits_of 18 text.now }
{
    if text.len() <= 8 {
        return middle(text);
    }
    long(text)
}

// 1 to width digits as their number, or NONE, where these may be more than few.
// Kept: a plain number and no Option: an enum of that shape went through memory, and a feed took a tenth more time (docs/PROVING.md).
fn read(text: &[u8], width: usize) -> u64
    requires { 3 < width }
    ensures { digits_of width text.now ≡ (if nat_eq result 18446744073709551615 then None else Some result) }
{
    let n = text.len();
    if WIDEST < width {
        return NONE;
    }
    if n <= FEW {
        if n == 0 {
            return NONE;
        }
        return short(text).unwrap_or(NONE);
    }
    if width < n {
        return NONE;
    }
    many(text).unwrap_or(NONE)
}

// 1 to width digits where these are few, one a turn.
#[tactic(auto, using(crate::proofs::Steps::other))]
fn few(text: &[u8], width: usize) -> Option<u64>
    requires { width ≤ 3 }
    ensures { result ≡ digits_of width text.now }
{
    let n = text.len();
    if n == 0 {
        return None;
    }
    if n > width {
        return None;
    }
    let mut v = 0;
    for b in text {
        let d = worth(*b);
        if 9 < d {
            return None;
        }
        v = v * 10 + d;
    }
    Some(v)
}

// 1 to width digits, leading zeros allowed; a width above 18 reads nothing.
pub fn digits(text: &[u8], width: usize) -> Option<u64>
    ensures { result ≡ digits_of width text.now }
{
    if width <= FEW {
        return few(text, width);
    }
    let v = read(text, width);
    if v == NONE { None } else { Some(v) }
}

// Whether a zero stands before other bytes.
fn leads(text: &[u8]) -> bool
    ensures { result ≡ nat_le 2 (length text.now) && (slice_index text.now 0 == 48) }
{
    2 <= text.len() && text[0] == b'0'
}

// A whole number: 1 to width digits without a leading zero, except 0 itself.
// Not by `digits`, since a function with two callers stays one (docs/PROVING.md).
pub fn whole(text: &[u8], width: usize) -> Option<u64>
    ensures { result ≡ whole_of width text.now }
{
    if leads(text) {
        return None;
    }
    if width <= FEW {
        return few(text, width);
    }
    let v = read(text, width);
    if v == NONE { None } else { Some(v) }
}

// A whole number of at most width digits, from low to high.
#[tactic(auto, unfolding(crate::specs::Digits::ranged_of))]
pub fn ranged(text: &[u8], width: usize, low: u64, high: u64) -> Option<u64>
    ensures { result ≡ ranged_of width low high text.now }
{
    whole(text, width).filter(|v| low <= *v && *v <= high)
}
