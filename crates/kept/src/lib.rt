// What a message leaves alone (document 01, "Numbers, queue and marks"): one that is not read leaves the board as it was, and of a
// snapshot neither the number nor the time is taken.
#![tactic(auto)]

ghost use Rattle.std.specs.Prelude.{◌≡◌};
ghost use Rattle.cells.specs.Updates.{updates_of};
ghost use Rattle.message.specs.Answers.{number_of};
ghost use Rattle.store.specs.Meaning.{st};
ghost use Rattle.store.specs.Canon.{Formed};
ghost use Rattle.store.specs.Answers.{fed};
ghost use Rattle.taking.specs.Replays.{snap_s};

use cells::run::Updates;
use heading::Heading;
use message::{Answer, Head, Refusal};
use store::Fed;

// A message that is not read leaves the board as it was.
pub fn unread(h: Heading, why: Refusal) -> Fed
    ensures { (result.head ≡ h) × (result.answer ≡ Answer.NotRead why) }
{
    Fed {
        head: h,
        answer: Answer::NotRead(why),
    }
}

// A snapshot: its 34 is not compared with H, and its 52 dates nothing.
pub fn snapshot(store: &mut [u64], h: Heading, r: Head, us: Updates) -> Fed
    requires { Formed (st h store.old) }
    ensures { fed (number_of result.answer) (st result.head store.new) ≡ snap_s r.id r.last (updates_of us.entry) (st h store.old) }
{
    taking::snapshot(store, h, r.id, r.last, us)
}
