// A message that was read, on the channel in the store (document 02, K1): the board takes it, and then the loop of snapshots does.
#![tactic(auto)]

ghost use Rattle.std.specs.Prelude.{◌≡◌, Ok, true, ◌*◌, ◌≤◌, length};
ghost use Rattle.cells.specs.Runs.{update_size, updates_in};
ghost use Rattle.message.specs.Answers.{number_of};
ghost use Rattle.message.specs.Message.{most_number, head_in, told, said, count_in};
ghost use Rattle.board.specs.Ranges.{message_fine};
ghost use Rattle.board.specs.Sound.{Sound};
ghost use Rattle.loops.specs.Laws.{empty_for};
ghost use Rattle.store.specs.Meaning.{st, board_in};
ghost use Rattle.store.specs.Canon.{Canon};
ghost use Rattle.channel.specs.Feeds.{Aims};
ghost use Rattle.rounds.specs.Rounds.{Ends, Rounds, Gives};

use heading::Heading;
use loops::Loop;
use message::{Answer, Kind, Reading, Refusal};

// The heading that goes with the store, and the record of the loop behind a W.
#[derive(Clone, Copy)]
struct Round {
    pub head: Heading,
    pub row: Loop,
}

// What a message is answered, and the heading and the record that go with the store it leaves.
#[derive(Clone, Copy)]
pub struct Given {
    pub head: Heading,
    pub row: Loop,
    pub answer: Answer,
}

// An empty snapshot for the SecurityID with 369 = last.
#[tactic(auto, unfolding(message::specs::Message::told))]
fn empty_for(id: u64, last: u64) -> Reading
    ensures { Ok result ≡ (told (empty_for id last)).reading }
{
    Reading {
        kind: Kind::Snapshot,
        number: 1,
        heard: 0,
        id,
        last,
        loops: 1,
        count: 0,
    }
}

// The loop is whole: each instrument that it did not name takes an empty snapshot with the lowest 369, if it waits and that lies in B
// to H. The run stays: such a snapshot has no entries.
fn end(store: &mut [u64], h: Heading, l: Loop, run: &mut [u64]) -> Heading
    requires { Canon (st h store.old) × Sound (board_in (st h store.old)) }
    ensures ends { Ends l (st h store.old) (st result store.new) }
    ensures run_unchanged { run.new ≡ run.old }
{
    let mut g = h;
    for i in 0..h.followed {
        if l.named_at(i) {
            continue;
        }
        let r = empty_for(store[store::IDS + i * store::RECORD], l.low);
        let f = channel::feed_read(store, g, Ok(r), run);
        g = f.head;
    }
    g
}

// The loop with a W in it: one that it makes whole ends, and then none runs.
fn looped(store: &mut [u64], h: Heading, l: Loop, r: Reading, run: &mut [u64]) -> Round
    requires { Canon (st h store.old) × Sound (board_in (st h store.old)) × (l.come ≤ most_number) }
    ensures rounds { Rounds (head_in r) l (st h store.old) result.row (st result.head store.new) }
    ensures run_unchanged { run.new ≡ run.old }
{
    let m = l.join(r.head(), h.followed, store::find(store, h, r.id));
    if !m.is_whole() {
        return Round { head: h, row: m };
    }
    Round {
        head: end(store, h, m, run),
        row: loops::none(),
    }
}

// The message that the reader's answer and the entries in a run say, on the channel that the heading, the record and the
// store are.
pub fn give(
    store: &mut [u64],
    h: Heading,
    l: Loop,
    r: Result<Reading, Refusal>,
    run: &mut [u64],
) -> Given
    requires { Canon (st h store.old) × Sound (board_in (st h store.old)) × (l.come ≤ most_number) × (count_in r * update_size ≤ length run.old) × (message_fine h.depth (said r (updates_in run.old (count_in r))) ≡ true) }
    ensures gives { Gives (said r (updates_in run.old (count_in r))) l (st h store.old) (number_of result.answer) result.row (st result.head store.new) }
    ensures aims { Aims (st h store.old) (count_in r) run.old run.new }
{
    let f = channel::feed_read(store, h, r, run);
    let fed = Given {
        head: f.head,
        row: l,
        answer: f.answer,
    };
    match r {
        Ok(r) => match r.kind {
            Kind::Numbered => fed,
            Kind::Snapshot => {
                let o = looped(store, f.head, l, r, run);
                Given {
                    head: o.head,
                    row: o.row,
                    ..fed
                }
            }
        },
        Err(_) => fed,
    }
}
