// One message on the store (document 01; document 02, K1): 17 first, then 11 to 14, then the rest.
#![tactic(auto)]

ghost use Rattle.feed.specs.Feeding.{Fed};

// The Waiting count stands above the answer.
const ABOVE: u64 = 256;

// The numbers of the most entries that a message has, 64 of 9 each.
const RUN: usize = 576;

// Reads the bytes of a message and gives the message to the channel in the store. The answer is document 01's number and 256
// times how many instruments wait afterwards.
// Kept: it answers a number, since `selkavorn_feed` hands it to C as it is, and `Fed` says it.
pub fn feed(store: &mut [u64], message: &[u8]) -> u64
    ensures { Fed message.now store.old result store.new }
{
    if !sound::sound(store) {
        return store::BAD_STORE;
    }
    let h = store::load_heading(store);
    let l = store::load_loop(store);
    let mut run = [0; RUN];
    let r = fields::read(message, h.depth, &mut run);
    let f = rounds::give(store, h, l, r, &mut run);
    store::save_heading(store, f.head);
    store::save_loop(store, f.row);
    u64::from(f.answer) + ABOVE * u64::from(f.head.waiting())
}
