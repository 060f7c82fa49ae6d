// A message is a chain of fields (document 01, "Frame"): each is a tag, '=', a value and SOH. Nothing is copied: an answer holds
// places in the lent bytes.
// Kept: the bytes and a place in them stay two parameters: in a part that starts there, `&s[at..]`, each place of an answer would be counted
// from another start.
#![tactic(auto)]

ghost use Rattle.std.specs.Prelude.{◌≡◌, ◌≤◌, length};
ghost use Rattle.chain.specs.Fields.{fields_of};
ghost use Rattle.chain.specs.Places.{first_of, field_at, Tells, is_some};

// A field: its tag, and its value as from..to, where SOH stands at to.
#[derive(Clone, Copy)]
pub struct Step {
    pub tag: u64,
    pub from: usize,
    pub to: usize,
}

// A tag, and where its '=' stands.
#[derive(Clone, Copy)]
struct Tag {
    tag: u64,
    mid: usize,
}

const SOH: u8 = 1;

const EQUALS: u8 = b'=';

// No tag starts with it.
const ZERO: u8 = b'0';

// A tag is at most 99,999.
const TAG_DIGITS: usize = 5;

// Where a byte first stands from a place on, or the end: one byte a turn.
fn find_by_one(s: &[u8], at: usize, x: u8) -> usize
    requires { at ≤ length s.now }
    ensures { result ≡ first_of x s.now at }
{
    match s[at..].iter().position(|b| *b == x) {
        Some(k) => at + k,
        None => s.len(),
    }
}

// The same, four bytes a turn as long as there are four.
// Kept: with `position` alone a chain of fields takes 11 % more instructions to read.
fn find(s: &[u8], at: usize, x: u8) -> usize
    requires { at ≤ length s.now }
    ensures { result ≡ first_of x s.now at }
{
    let n = s.len();
    let mut i = at;
    while 4 <= n - i {
        if s[i] == x {
            return i;
        }
        if s[i + 1] == x {
            return i + 1;
        }
        if s[i + 2] == x {
            return i + 2;
        }
        if s[i + 3] == x {
            return i + 3;
        }
        i += 4;
    }
    find_by_one(s, i, x)
}

// The tag of the field that starts at a place, and where its '=' stands. The bytes before '=' are read in the loop that
// finds it, and what they say is `digits::ranged` of them, from 1 to 99,999: digits' own laws show it.
fn tag_at(s: &[u8], at: usize) -> Option<Tag>
    ensures { Tells s.now at result }
{
    let mut v = 0u64;
    for i in at..s.len() {
        let b = s[i];
        let d = digits::worth(b);
        if 9 < d {
            if b != EQUALS || v == 0 || s[at] == ZERO {
                return None;
            }
            return Some(Tag { tag: v, mid: i });
        }
        if TAG_DIGITS <= i - at {
            return None;
        }
        v = v * 10 + d;
    }
    None
}

// The field that starts at a place.
pub fn field(s: &[u8], at: usize) -> Option<Step>
    ensures { result ≡ field_at s.now at }
{
    let Tag { tag, mid } = tag_at(s, at)?;
    let from = mid + 1;
    let to = find(s, from, SOH);
    if s.len() <= to || to == from {
        return None;
    }
    Some(Step { tag, from, to })
}

// Whether the bytes are a chain of fields.
pub fn chain(s: &[u8]) -> bool
    ensures { result ≡ is_some (fields_of s.now) }
{
    let mut at = 0;
    while at < s.len() {
        let Some(step) = field(s, at) else {
            return false;
        };
        at = step.to + 1;
    }
    true
}
