// What a store has counted and which of its instruments wait, as numbers in room that the caller lends (document 01, "Numbers, queue
// and marks"). A refusal writes nothing there.
#![tactic(auto)]

ghost use Rattle.std.specs.Prelude.{◌≡◌, true, ◌≤◌, length};
ghost use Rattle.std.proofs.lemmas.List.Edits.{sets};
ghost use Rattle.board.specs.Sound.{heard_fine};
ghost use Rattle.store.specs.Meaning.{board_at};
ghost use Rattle.sound.specs.Sound.{sound};
ghost use Rattle.summary.specs.Summary.{summary_size, heard_words, summary_words, Summed};

// The numbers of a summary.
const SUMMARY: usize = 5;

// The date and the time of day of message H, or zeros where nothing is heard.
fn put_heard(out: &mut [u64], number: u64, heard: u64)
    requires { (3 ≤ length out.old) × (heard_fine number heard ≡ true) }
    ensures { out.new ≡ sets out.old 1 (heard_words number heard) }
{
    if number == 0 {
        out[1..3].fill(0);
    } else {
        ask::put_moment(out, 1, heard);
    }
}

// The five numbers of a sound store.
fn put_summary(store: &[u64], out: &mut [u64])
    requires { (sound store.now ≡ true) × (summary_size ≤ length out.old) }
    ensures { out.new ≡ sets out.old 0 (summary_words (board_at store.now)) }
{
    let h = store::load_heading(store);
    out[0] = h.number;
    put_heard(out, h.number, h.heard);
    out[3] = h.base;
    out[4] = u64::from(h.marks);
}

// Kept: a number and no Result, since `selkavorn_board` alone calls it, for C, and `Summed` says document 01's number.
// H, the heard moment, B and the marks: 17, 18, else 0 and 5 numbers at the start of the room.
#[tactic(auto, unfolding(crate::specs::Summary::summary_answer, crate::specs::Summary::summary_out))]
pub fn summary(store: &[u64], out: &mut [u64]) -> u64
    ensures { Summed out.old store.now result out.new }
{
    if !sound::sound(store) {
        return store::BAD_STORE;
    }
    if out.len() < SUMMARY {
        return store::BAD_ARGUMENT;
    }
    put_summary(store, out);
    store::DONE
}
