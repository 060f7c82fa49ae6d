// What a message says once it is read: its type's part and its numbers, by value (document 01, "Frame" and "Fields"). The reader
// answers one of these, and writes the entries of the message as a run of numbers; a board takes both.
#![tactic(auto)]

ghost use Rattle.std.specs.Prelude.{◌≡◌};
ghost use Rattle.message.specs.Message.{answer_of, head_in};
ghost use Rattle.message.specs.Answers.{number_of};

// 34, 369 and 911 are at most this.
pub const MOST_NUMBER: u64 = 4294967295;

// Why a message is not read.
#[derive(Clone, Copy, PartialEq, Eq)]
pub enum Refusal {
    // The frame
    BadFrame,
    // The checksum
    BadSum,
    // The type
    BadType,
    // Any breach under "Fields"
    BadFields,
}

impl From<Refusal> for u64 {
    ghost from_gives = { λ why n. n ≡ answer_of why };

    // The answer number of a message that is not read.
    fn from(why: Refusal) -> u64 {
        match why {
            Refusal::BadFrame => 11,
            Refusal::BadSum => 12,
            Refusal::BadType => 13,
            Refusal::BadFields => 14,
        }
    }
}

// What a feed answers.
#[derive(Clone, Copy, PartialEq, Eq)]
pub enum Answer {
    // Counted in order
    InOrder,
    // A gap, counted
    Gap,
    // Old
    Old,
    // Counted, the queue let go
    LetGo,
    // The snapshot is taken
    Taken,
    // Snapshot: not followed
    NotOurs,
    // Snapshot: already Live
    AlreadyLive,
    // Snapshot: S below B
    Below,
    // Snapshot: S above H
    Above,
    // Snapshot: a side over 20 places
    TooWide,
    // Snapshot: the replay broke
    Broke,
    // Not read, and why
    NotRead(Refusal),
}

impl From<Answer> for u64 {
    ghost from_gives = { λ answer n. n ≡ number_of answer };

    // The answer's number.
    fn from(answer: Answer) -> u64 {
        match answer {
            Answer::InOrder => 0,
            Answer::Gap => 1,
            Answer::Old => 2,
            Answer::LetGo => 3,
            Answer::Taken => 4,
            Answer::NotOurs => 5,
            Answer::AlreadyLive => 6,
            Answer::Below => 7,
            Answer::Above => 8,
            Answer::TooWide => 9,
            Answer::Broke => 10,
            Answer::NotRead(why) => u64::from(why),
        }
    }
}

// What a message that was read is.
#[derive(Clone, Copy, PartialEq, Eq)]
pub enum Kind {
    // X, 0, f, y, B: it carries a number and a time, an X entries too
    Numbered,
    // W
    Snapshot,
}

// A message that was read. number is 34 and heard the moment of 52; id, last and loops are 48, 369 and 911 of a W, else 0.
// count is how many bid, offer and J entries it has.
#[derive(Clone, Copy)]
pub struct Reading {
    pub kind: Kind,
    pub number: u64,
    pub heard: u64,
    pub id: u64,
    pub last: u64,
    pub loops: u64,
    pub count: usize,
}

// What stands before the entries of a W: numbers of a reading, named as there, without its kind and its count.
#[derive(Clone, Copy)]
pub struct Head {
    pub number: u64,
    pub heard: u64,
    pub id: u64,
    pub last: u64,
    pub loops: u64,
}

impl Reading {
    // What stands before the entries of the W that a reading tells.
    pub fn head(self) -> Head
        ensures { result ≡ head_in self }
    {
        Head {
            number: self.number,
            heard: self.heard,
            id: self.id,
            last: self.last,
            loops: self.loops,
        }
    }
}
