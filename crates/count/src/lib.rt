// A message with a number, in place on the store (document 01, "Numbers, queue and marks"): at most H is old, more than H+1
// is a gap; it is counted, its entries join the queue if any waits, and Live instruments get theirs.
#![tactic(auto)]

ghost use Rattle.std.specs.Prelude.{◌≡◌};
ghost use Rattle.cells.specs.Updates.{updates_of};
ghost use Rattle.message.specs.Answers.{number_of};
ghost use Rattle.store.specs.Meaning.{st};
ghost use Rattle.store.specs.Canon.{Formed};
ghost use Rattle.store.specs.Answers.{fed};
ghost use Rattle.count.specs.Counts.{count_s, number_s};

use cells::run::Updates;
use heading::Heading;
use message::Answer;
use store::Fed;

// In order: H and the heard moment are taken; the entries are queued if any waits, and given. a is the answer unless the
// queue is let go.
#[tactic(auto, unfolding(crate::specs::Counts::count_s))]
fn count_in(store: &mut [u64], h: Heading, a: Answer, n: u64, heard: u64, us: Updates) -> Fed
    requires { Formed (st h store.old) }
    ensures { fed (number_of result.answer) (st result.head store.new) ≡ count_s (number_of a) n heard (updates_of us.entry) (st h store.old) }
{
    let g = h.count(n, heard);
    if h.marks == 0 {
        let d = deliver::give_all(store, g, us);
        return Fed {
            head: d.let_go(),
            answer: a,
        };
    }
    let (k, answer) = match queue::join(store, g, n, us) {
        Ok(k) => (k, a),
        Err(k) => (k, Answer::LetGo),
    };
    let head = deliver::give_all(store, k, us);
    Fed { head, answer }
}

// Message n, heard at a moment, with its entries; who is an instrument's index.
#[tactic(auto, unfolding(crate::specs::Counts::number_s))]
pub fn number(store: &mut [u64], h: Heading, n: u64, heard: u64, us: Updates) -> Fed
    requires { Formed (st h store.old) }
    ensures { fed (number_of result.answer) (st result.head store.new) ≡ number_s n heard (updates_of us.entry) (st h store.old) }
{
    if n <= h.number {
        return Fed {
            head: h,
            answer: Answer::Old,
        };
    }
    if n - 1 <= h.number {
        return count_in(store, h, Answer::InOrder, n, heard, us);
    }
    let g = store::gap(store, h, n);
    count_in(store, g, Answer::Gap, n, heard, us)
}
