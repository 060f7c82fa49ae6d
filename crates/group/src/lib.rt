// The entries of a group (document 01, "Fields"): each is a place, which is walked, and what it says is read from what stands
// in it and written into a lent run.
#![tactic(auto)]

ghost use Rattle.std.specs.Prelude.{◌≡◌, ◌≤◌, length};
ghost use Rattle.chain.specs.Places.{left};
ghost use Rattle.position.specs.Positions.{Fair};
ghost use Rattle.group.specs.Listed.{grouped};
ghost use Rattle.group.specs.Reads.{run_size, Lists};

use chain::Step;
use position::{Next, Top};
use tags::{Span, Values};

// The entries of a group from `start` on, which 268 counts, into the run. It answers how many updates they say, unless
// they breach a rule.
pub fn listed(
    s: &[u8],
    start: usize,
    count: u64,
    depth: u64,
    t: &Top,
    run: &mut [u64],
) -> Option<usize>
    requires { Fair t.now × ((count ≤ 64) × (run_size ≤ length run.old)) }
    ensures { Lists (grouped depth t.now count (left s.now start)) result run.old run.new }
{
    let end = s.len();
    let first = t.first;
    let low = t.low;
    let mut n: usize = 0;
    let mut next = Next { bid: 1, offer: 1 };
    let mut more = count;
    let mut at = start;
    while at < end {
        let Step { tag, from, to } = chain::field(s, at)?;
        at = to + 1;
        let k = tags::slot(tag);
        if tag != first {
            // before the first entry no tag named stands
            if k < tags::NAMED {
                return None;
            }
            continue;
        }
        if more == 0 {
            return None;
        }
        more -= 1;
        let mut marks = tags::no_marks();
        marks.spans[k] = Some(Span { from, to });
        at = place::walk(
            s,
            at,
            &mut marks,
            first,
            tags::NAMED,
            low,
            position::ENTRY_END,
        )
        .ok()?;
        let entry = Values {
            text: s,
            marks: &marks,
        };
        if let Some(u) = position::entry(entry, depth, t, next)? {
            cells::save_update(run, n * cells::UPDATE, u);
            n += 1;
            next = next.after(u.what);
        }
    }
    if more == 0 { Some(n) } else { None }
}
