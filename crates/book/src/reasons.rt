// Why a side refuses an entry, and the number that says it.
ghost use Rattle.std.specs.Prelude.{◌≡◌};
ghost use Rattle.book.specs.Results.{reason_number};

// Why a side refuses an entry: the place, or no room for one more.
#[derive(Clone, Copy, PartialEq, Eq)]
pub enum Breach {
    Place,
    Room,
}

impl From<Breach> for u64 {
    ghost from_gives = { λ why n. n ≡ reason_number why };

    // The reason's number.
    fn from(why: Breach) -> u64 {
        match why {
            Breach::Place => 1,
            Breach::Room => 2,
        }
    }
}
