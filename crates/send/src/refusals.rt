// Why nothing is written, and the number that says it (document 01, "Quote and writing").
ghost use Rattle.std.specs.Prelude.{◌≡◌};
ghost use Rattle.send.specs.declared.refusals.Refusal.TheVariants.{TooShort};
ghost use Rattle.send.specs.Refusals.{refusal_number};

// Why nothing is written.
#[derive(Clone, Copy, Debug, PartialEq, Eq)]
pub enum Refusal {
    // The store is unsound
    BadStore,
    // An argument is outside its range
    BadArgument,
    // The instrument is not followed
    NotFollowed,
    // It is Waiting
    Waiting,
    // The output is too short for the message
    TooShort,
}

impl From<writer::TooShort> for Refusal {
    ghost from_gives = { λ _ why. why ≡ TooShort };

    fn from(_short: writer::TooShort) -> Refusal {
        Refusal::TooShort
    }
}

impl From<Refusal> for u64 {
    ghost from_gives = { λ why n. n ≡ refusal_number why };

    // The refusal's number.
    fn from(why: Refusal) -> u64 {
        match why {
            Refusal::BadStore => store::BAD_STORE,
            Refusal::BadArgument => store::BAD_ARGUMENT,
            Refusal::NotFollowed => store::NOT_FOLLOWED,
            Refusal::Waiting => store::WAITING,
            Refusal::TooShort => 25,
        }
    }
}
