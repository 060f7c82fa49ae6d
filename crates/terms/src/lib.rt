// The terms of a snapshot, from numbers alone (document 01, "Numbers, queue and marks"): why it is refused before it is looked at, and
// which queued entries are applied after it.
#![tactic(auto)]

ghost use Rattle.std.specs.Prelude.{◌≡◌, ◌≤◌, ltb};
ghost use Rattle.std.specs.Result.{is_err};
ghost use Rattle.terms.specs.Terms.{due, refusal_of, refused_as};

use heading::Heading;
use message::Answer;

// Why a snapshot for the instrument at index i is refused, if it is.
#[tactic(auto, unfolding(crate::specs::Terms::refusal_of))]
pub fn refusal(h: Heading, i: usize, last: u64) -> Result<(), Answer>
    requires { h.followed ≤ 16 }
    ensures number { refused_as result ≡ refusal_of h i last }
    ensures refused { is_err result ≡ ltb 0 (refusal_of h i last) }
{
    if h.followed <= i {
        return Err(Answer::NotOurs);
    }
    if !h.waits(i) {
        return Err(Answer::AlreadyLive);
    }
    if last < h.base {
        return Err(Answer::Below);
    }
    if h.number < last {
        return Err(Answer::Above);
    }
    Ok(())
}

// Whether a queued entry for `who` of message n is one for instrument i, or for all, with a number above `last`.
pub fn is_due(i: usize, last: u64, who: u64, what: u64, n: u64) -> bool
    ensures { result ≡ due i last who what n }
{
    let me = i as u64;
    (what == book::J_FOR_ALL || who == me) && last < n
}
