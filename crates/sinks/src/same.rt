ghost use Rattle.std.specs.Prelude.{◌≡◌, ℕ, Bool, false, None, Option};
ghost use Rattle.rules.specs.Order.{when};
ghost use Rattle.rules.specs.Rows.{same_if};
ghost use Rattle.rules.specs.declared.breach.Breach.{Breach};
ghost use Rattle.sinks.specs.Flow.{flow};
ghost use Rattle.sinks.specs.Alike.{between};

use super::sink::Sink;
use rules::Breach;
use std::ops::ControlFlow;

/// A row of elements, some of which may be absent, with the breach to tell of a place whose element is met again.
pub trait Row {
    type Element: Eq + Copy;

    // whether x and the element at a place are both there, and the same
    ghost twin: { Self → Option Self.Element → ℕ → Bool };

    // nothing is the same as what is absent
    ghost lone: { (s : Self) (place : ℕ) → twin s None place ≡ false };

    ghost tells: { Self → ℕ → Breach };

    fn at(&self, place: usize) -> Option<Self::Element>
        ensures { (x : Option Self.Element) → same_if Self.Element.PartialEq.eq x result ≡ twin self.now x place };

    fn tell(&self, place: usize) -> Breach
        ensures { result ≡ tells self.now place };
}

/// Offers what the row tells of each place in `from..to` whose element is the same as the one sought.
pub fn offer_same<R: Row, S: Sink>(
    sought: Option<R::Element>,
    row: &R,
    from: usize,
    to: usize,
    sink: &mut S,
) -> ControlFlow<()>
    ensures took { S.Sink.after sink.old (between (λ j. when (R.Row.twin row.now sought j) (R.Row.tells row.now j)) from to) sink.new }
    ensures goes { result ≡ flow (S.Sink.full sink.new) }
{
    if sought.is_none() {
        return sink.go_on();
    }
    // over places: the row tells a breach by its place, and only where there is one to tell
    for place in from..to {
        if sought == row.at(place) {
            sink.offer(row.tell(place))?;
        }
    }
    sink.go_on()
}
