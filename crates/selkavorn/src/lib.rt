// The functions that a C program calls, by crate selkavorn_c; include/selkavorn.h and include/selkavorn_lots.h say what each takes. None
// of them asks anything of its caller beyond what C asks of a pointer and a length.
#![tactic(auto)]

ghost use Rattle.opening.specs.Opening.{Opened};
ghost use Rattle.feed.specs.Feeding.{Fed};
ghost use Rattle.ask.specs.Ask.{Asked, Stated};
ghost use Rattle.summary.specs.Summary.{Summed};
ghost use Rattle.send.specs.Send.{Sent};
ghost use Rattle.salvage.specs.Rooms.{Salvaged};
ghost use Rattle.lots.specs.Rooms.{Dealt};
ghost use Rattle.std.specs.Prelude.{true, false};

// Opens a store for a depth kind (0 order depth, 1 price depth) and SecurityIDs.
pub fn selkavorn_open(store: &mut [u64], depth: u64, ids: &[u64]) -> u64
    ensures { Opened depth ids.now store.old result store.new }
{
    opening::open_store(store, depth, ids)
}

// Reads a message and gives it to the board: the answer and 256 times how many instruments wait.
pub fn selkavorn_feed(store: &mut [u64], msg: &[u8]) -> u64
    ensures { Fed msg.now store.old result store.new }
{
    feed::feed(store, msg)
}

// Quotes place 1 of each side with H and the heard moment, as 17 numbers in out; now is shaped as tag 52.
pub fn selkavorn_quote(store: &[u64], id: u64, time: &[u8], limit: u64, out: &mut [u64]) -> u64
    ensures { Asked id time.now limit out.old store.now result out.new }
{
    ask::quote(store, id, time, limit, out)
}

// Writes an instrument's book as a snapshot, message k of a loop of m: the answer and 256 times its length.
pub fn selkavorn_write(
    store: &[u64],
    id: u64,
    sender: &[u8],
    target: &[u8],
    k: u64,
    m: u64,
    time: &[u8],
    out: &mut [u8],
) -> u64
    ensures { Sent id sender.now target.now k m time.now out.old store.now result out.new }
{
    send::write(store, id, sender, target, k, m, time, out)
}

// Says why an instrument waits, as 4 numbers in out: Waiting 1 or 0, the reason, bids held, offers held.
pub fn selkavorn_state(store: &[u64], id: u64, out: &mut [u64]) -> u64
    ensures { Stated id out.old store.now result out.new }
{
    ask::state(store, id, out)
}

// Says what was counted and who waits, as 5 numbers in out: H, the heard date and time, B, the Waiting marks.
pub fn selkavorn_board(store: &[u64], out: &mut [u64]) -> u64
    ensures { Summed out.old store.now result out.new }
{
    summary::summary(store, out)
}

// Walks a recording from a byte on, as many pieces as fit in out: the byte to go on at, how many pieces, and three numbers for each.
pub fn selkavorn_salvage(rec: &[u8], from: u64, out: &mut [u64]) -> u64
    ensures { Salvaged rec.now from out.old result out.new }
{
    salvage::walk(rec, from, out)
}

// Gives what selling so many units down an instrument's bids brings, as 5 numbers in out: H, the heard date and time, the sum, what is left.
pub fn selkavorn_sell(
    store: &[u64],
    id: u64,
    quantity: u64,
    time: &[u8],
    limit: u64,
    out: &mut [u64],
) -> u64
    ensures { Dealt false id quantity time.now limit out.old store.now result out.new }
{
    lots::deal(store, false, id, quantity, time, limit, out)
}

// Gives what buying so many units up an instrument's offers costs, likewise.
pub fn selkavorn_buy(
    store: &[u64],
    id: u64,
    quantity: u64,
    time: &[u8],
    limit: u64,
    out: &mut [u64],
) -> u64
    ensures { Dealt true id quantity time.now limit out.old store.now result out.new }
{
    lots::deal(store, true, id, quantity, time, limit, out)
}
