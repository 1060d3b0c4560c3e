ghost use Rattle.std.specs.Prelude.{◌≡◌};
ghost use Rattle.sinks.specs.Flow.{flow};
ghost use Rattle.rules.specs.Order.{when};
ghost use Rattle.sinks.specs.Offers.{tests_told};

use super::sink::Sink;
use super::told::of_one;
use rules::{Breach, Entry, Rule};
use std::ops::ControlFlow;

/// Offers the breach if its test came out true.
pub fn offer_if<S: Sink>(broken: bool, breach: Breach, sink: &mut S) -> ControlFlow<()>
    ensures took { S.Sink.after sink.old (when broken breach) sink.new }
    ensures goes { result ≡ flow (S.Sink.full sink.new) }
{
    if broken {
        sink.offer(breach)
    } else {
        sink.go_on()
    }
}

/// Offers the rule of each test that came out true, as broken by its owner.
pub fn offer_tests<S: Sink>(owner: Entry, tests: &[(bool, Rule)], sink: &mut S) -> ControlFlow<()>
    ensures took { S.Sink.after sink.old (tests_told owner tests.now) sink.new }
    ensures goes { result ≡ flow (S.Sink.full sink.new) }
{
    for (broken, rule) in tests {
        offer_if(*broken, of_one(*rule, owner), sink)?;
    }
    sink.go_on()
}
