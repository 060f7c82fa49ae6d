// What leads to the entries of a message (document 01, "Fields"): what stands before 268 is one place, which is walked, and
// what the type needs of it is read; 268 then says how many entries follow.
#![tactic(auto)]

ghost use Rattle.std.specs.Prelude.{◌≡◌};
ghost use Rattle.chain.specs.Places.{left};
ghost use Rattle.tags.specs.ByTag.{by_tag};
ghost use Rattle.position.specs.Positions.{Fair};
ghost use Rattle.lead.specs.Messages.{other_of, typed_as};
ghost use Rattle.lead.specs.Leads.{top_x, top_w, top_by, head_end, body_by, telling, group_said, Leads};
ghost use Rattle.lead.specs.LeadOf.{counted_lead, group_lead, other_lead, lead_of};

use chain::Step;
use message::Kind;
use position::Top;
use tags::Values;

// The tag that ends what stands before a group; no field has the tag 0.
// Kept: 0 and no Option, since `place::walk` takes any number as the tag that a place ends at, and `walk_on` says it so.
const COUNT_TAG: u64 = 268;

const NO_TAG: u64 = 0;

// The slots that may stand before 268 in X and in W, up to a last one.
const HEAD: usize = tags::SEQ;

const HEAD_X_END: usize = tags::LAST;

const HEAD_W_END: usize = tags::ACTION;

// What leads to the entries: what the message is, what stands before them, the place where they start, and what 268 says.
// Where there is no group, they start at the end and 268 is 0.
#[derive(Clone, Copy)]
pub struct Lead {
    pub kind: Kind,
    pub top: Top,
    pub at: usize,
    pub count: u64,
}

// What X and the other types need before 268.
#[tactic(auto, unfolding(crate::specs::Leads::top_x, tags::specs::Slots::marked, tags::specs::Slots::slot_of))]
fn top_x(v: Values) -> Option<Top>
    ensures { result ≡ top_x (by_tag v.entry) }
{
    let number = digits::ranged(v.get(tags::SEQ), 10, 1, message::MOST_NUMBER)?;
    let heard = moment::moment(v.get(tags::SENT))?;
    Some(Top {
        first: position::FIRST_X,
        low: position::ENTRY_X,
        number,
        heard,
        id: 0,
        last: 0,
        loops: 0,
    })
}

// What W needs there.
#[tactic(auto, unfolding(crate::specs::Leads::top_w, tags::specs::Slots::marked, tags::specs::Slots::slot_of))]
fn top_w(v: Values) -> Option<Top>
    ensures { result ≡ top_w (by_tag v.entry) }
{
    let top = top_x(v)?;
    let id = values::instrument(v)?;
    let last = digits::ranged(v.get(tags::LAST), 10, 0, message::MOST_NUMBER)?;
    let loops = digits::ranged(v.get(tags::LOOPS), 10, 1, message::MOST_NUMBER)?;
    Some(Top {
        first: position::FIRST_W,
        low: position::ENTRY_W,
        id,
        last,
        loops,
        ..top
    })
}

// What X or W needs there.
fn top(v: Values, kind: Kind) -> Option<Top>
    ensures { result ≡ top_by kind (by_tag v.entry) }
{
    match kind {
        Kind::Numbered => top_x(v),
        Kind::Snapshot => top_w(v),
    }
}

// The slot up to which tags may stand there.
fn head_end(kind: Kind) -> usize
    ensures { result ≡ head_end kind }
{
    match kind {
        Kind::Numbered => HEAD_X_END,
        Kind::Snapshot => HEAD_W_END,
    }
}

// The group from 268 on.
fn counted(s: &[u8], start: usize, kind: Kind, top: Top) -> Option<Lead>
    requires { Fair top }
    ensures { Leads s.now result (counted_lead s.now start kind top) (λ depth. group_said kind depth top (left s.now start)) }
{
    let Step { tag: _, from, to } = chain::field(s, start)?;
    let count = digits::ranged(&s[from..to], 2, 0, 64)?;
    Some(Lead {
        kind,
        top,
        at: to + 1,
        count,
    })
}

// X and W.
fn with_group(s: &[u8], kind: Kind) -> Option<Lead>
    ensures { Leads s.now result (group_lead kind s.now) (λ depth. telling (body_by kind depth (left s.now 0))) }
{
    let mut marks = tags::no_marks();
    let at = place::walk(
        s,
        0,
        &mut marks,
        COUNT_TAG,
        tags::NAMED,
        HEAD,
        head_end(kind),
    )
    .ok()?;
    let head = Values {
        text: s,
        marks: &marks,
    };
    let top = top(head, kind)?;
    counted(s, at, kind, top)
}

// 0, f, y, B.
fn other(s: &[u8]) -> Option<Lead>
    ensures { Leads s.now result (other_lead s.now) (λ depth. telling (other_of (left s.now 0))) }
{
    let mut marks = tags::no_marks();
    let at = place::walk(s, 0, &mut marks, COUNT_TAG, HEAD_X_END, HEAD, HEAD_X_END).ok()?;
    let mut rest = tags::no_marks();
    place::walk(s, at, &mut rest, NO_TAG, HEAD_X_END, 0, 0).ok()?;
    let head = Values {
        text: s,
        marks: &marks,
    };
    let top = top_x(head)?;
    Some(Lead {
        kind: Kind::Numbered,
        top,
        at: s.len(),
        count: 0,
    })
}

// The fields between 35 and 10, by the type.
pub fn typed(s: &[u8], kind: u8) -> Option<Lead>
    ensures { Leads s.now result (lead_of kind s.now) (λ depth. telling (typed_as depth kind (left s.now 0))) }
{
    match kind {
        b'X' => with_group(s, Kind::Numbered),
        b'W' => with_group(s, Kind::Snapshot),
        _ => other(s),
    }
}
