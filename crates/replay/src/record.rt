// What stands in a record's bytes.
ghost use Rattle.std.specs.Prelude.{◌≤◌, length};

// The bytes after a record's head. One that is missing reads as 0.
#[derive(Clone, Copy)]
pub(crate) struct Body<'a> {
    pub(crate) bytes: &'a [u8],
}

impl<'a> Body<'a> {
    // The byte at a place.
    pub(crate) fn byte(&self, at: usize) -> u8 {
        self.bytes.get(at).copied().unwrap_or(0)
    }

    // The bytes from a place on.
    pub(crate) fn rest(&self, from: usize) -> &'a [u8] {
        &self.bytes[from.min(self.bytes.len())..]
    }

    // The bytes from a place on, n of them or as many as there are.
    pub(crate) fn part(&self, from: usize, n: usize) -> &'a [u8]
        ensures { length result.now ≤ n }
    {
        start(self.rest(from), n)
    }

    // The number of the 8 bytes from a place on.
    pub(crate) fn number(&self, at: usize) -> u64 {
        let there = self.part(at, 8);
        let mut bytes = [0u8; 8];
        bytes[..there.len()].copy_from_slice(there);
        u64::from_le_bytes(bytes)
    }
}

// How many bytes a record has after its head.
pub(crate) fn size(head: &[u8; 3]) -> u16 {
    u16::from_le_bytes([head[1], head[2]])
}

// The first n, or as many as there are.
pub(crate) fn start(s: &[u8], n: usize) -> &[u8]
    ensures { length result.now ≤ n }
{
    &s[..n.min(s.len())]
}
