// Bytes and numbers written into a lent slice at a place. A byte past the end is left out, so that a run over too little
// room still counts bytes: the length of a message is known before any of it is written.
// Kept: the slice and the place stay two parameters. A cursor that holds the slice was tried: `put` is then `ensures same_reference
// { self.new.out.ghost_name ≡ self.old.out.ghost_name }` and `ensures wrote { Wrote self.old.out.now self.old.at (b ∷ []) self.new.out.now
// self.new.at }`, two clauses for the one here, and so is each function that calls it.
#![tactic(auto)]

ghost use Rattle.std.specs.Prelude.{◌≡◌, [], ◌∷◌, ◌+◌, ◌^◌, ◌≤◌, ◌<◌, length};
ghost use Rattle.text.specs.Text.{fixed, width_of, decimal, Wrote};

// One byte; the answer is the place after it.
pub fn put(out: &mut [u8], at: usize, b: u8) -> usize
    requires { at < 2 ^ 32 }
    ensures { Wrote out.old at (b ∷ []) out.new result }
{
    if at < out.len() {
        out[at] = b;
    }
    at + 1
}

// A run of bytes.
pub fn put_bytes(out: &mut [u8], at: usize, s: &[u8]) -> usize
    requires { (at < 2 ^ 28) × (length s.now ≤ 2 ^ 28) }
    ensures { Wrote out.old at s.now out.new result }
{
    let mut next = at;
    for b in s {
        next = put(out, next, *b);
    }
    next
}

// The last w digits of n, leading zeros too.
pub fn put_fixed(out: &mut [u8], at: usize, w: usize, n: u64) -> usize
    requires { at + w < 2 ^ 32 }
    ensures { Wrote out.old at (fixed w n) out.new result × (result ≡ at + w) }
{
    let mut rest = n;
    for i in (0..w).rev() {
        put(out, at + i, b'0' + (rest % 10) as u8);
        rest /= 10;
    }
    at + w
}

// How many digits n has.
pub fn width(n: u64) -> usize
    requires { n < 10 ^ 18 }
    ensures { (result ≡ width_of n) × (result ≤ 18) }
{
    n.max(1).ilog10() as usize + 1
}

// n in its shortest form.
pub fn put_decimal(out: &mut [u8], at: usize, n: u64) -> usize
    requires { (at < 2 ^ 31) × (n < 10 ^ 18) }
    ensures { Wrote out.old at (decimal n) out.new result × (result ≤ at + 18) }
{
    let w = width(n);
    put_fixed(out, at, w, n)
}
