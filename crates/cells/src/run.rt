// The entries of a message, where they stand in a run of numbers of their own: 9 to an entry, and so many of them.

ghost use Rattle.std.specs.Prelude.{◌≡◌, ◌∷◌, ◌+◌, ◌*◌, ◌≤◌, ◌<◌, length, drop};
ghost use Rattle.cells.specs.Cells.{update_at};
ghost use Rattle.cells.specs.Runs.{update_size, updates_in};

use super::{UPDATE, UPDATE_ENTRY, UPDATE_WHAT, load_entry, load_update};
use book::{Entry, Update};

// The first `count` entries of a run.
#[derive(Clone, Copy)]
pub struct Updates<'a> {
    pub run: &'a [u64],
    pub count: usize,
    pub ghost fits: { count * update_size ≤ length run.now },
}

impl<'a> Updates<'a> {
    // The entry at an index: it and those behind it are what is left from there on.
    pub fn at(self, i: usize) -> Update
        requires { i < self.count }
        ensures value { result ≡ update_at self.entry.run.now (i * update_size) }
        ensures turn { drop i (updates_in self.entry.run.now self.entry.count) ≡ result ∷ drop (i + 1) (updates_in self.entry.run.now self.entry.count) }
    {
        load_update(self.run, i * UPDATE)
    }

    // Of the entry at an index, the instrument that it is for.
    pub fn who(self, i: usize) -> u64
        requires { i < self.count }
        ensures { result ≡ (update_at self.entry.run.now (i * update_size)).who }
    {
        self.run[i * UPDATE]
    }

    // Of the entry at an index, what it is of.
    pub fn what(self, i: usize) -> u64
        requires { i < self.count }
        ensures { result ≡ (update_at self.entry.run.now (i * update_size)).what }
    {
        self.run[i * UPDATE + UPDATE_WHAT]
    }

    // The entry itself, without what it is of and what it does.
    pub fn entry(self, i: usize) -> Entry
        requires { i < self.count }
        ensures { result ≡ (update_at self.entry.run.now (i * update_size)).entry }
    {
        load_entry(self.run, i * UPDATE + UPDATE_ENTRY)
    }
}
