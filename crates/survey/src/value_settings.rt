ghost use Rattle.std.specs.Prelude.{◌≡◌, ◌^◌, ◌<◌};
ghost use Rattle.std.specs.List.{range_with_len};
ghost use Rattle.form.specs.Settings.{bit};
ghost use Rattle.rules.specs.Order.{blocks, when};
ghost use Rattle.rules.specs.Report.{arg_report};
ghost use Rattle.rules.specs.Rows.{own_bit, arg_of, setting_without_value};
ghost use Rattle.rules.specs.Told.{of_bit};
ghost use Rattle.rules.specs.declared.rule.Rule.TheVariants.{SettingWithoutValue};
ghost use Rattle.sinks.specs.Flow.{flow};

use super::arg_at::ArgAt;
use form::FormSource;
use rules::{Entry, Rule};
use sinks::{Sink, of_bit};
use std::ops::ControlFlow;

/// The settings about values: bits 4 to 8, 10 and 11.
const VALUE_BITS: u16 = 0b1101_1111_0000;

impl<F: FormSource> ArgAt<'_, F> {
    /// Offers each setting about values of an argument that takes none.
    pub(crate) fn offer_value_settings<S: Sink>(&self, sink: &mut S) -> ControlFlow<()>
        ensures took { S.Sink.after sink.old (arg_report (F.FormSource.form self.now.form.now) self.now.place (arg_of (F.FormSource.form self.now.form.now) self.now.place) (own_bit SettingWithoutValue setting_without_value)) sink.new }
        ensures goes { result ≡ flow (S.Sink.full sink.new) }
    {
        if !looks::takes_none(&self.arg) {
            return sink.go_on();
        }
        offer_bits(self.entry(), self.arg.settings.bits() & VALUE_BITS, sink)
    }
}

// offers each bit of the settings, the lowest first
// A rule of the project names this form: as many turns as there are bits, and the lowest that is left at each.
fn offer_bits<S: Sink>(owner: Entry, settings: u16, sink: &mut S) -> ControlFlow<()>
    requires { settings < 2 ^ 12 }
    ensures took { S.Sink.after sink.old (blocks (λ k _. when (bit settings k) (of_bit SettingWithoutValue owner k)) 0 (range_with_len 0 12)) sink.new }
    ensures goes { result ≡ flow (S.Sink.full sink.new) }
{
    let mut left = settings;
    for _turn in 0..settings.count_ones() {
        let lowest = left.trailing_zeros();
        sink.offer(of_bit(Rule::SettingWithoutValue, owner, lowest as usize))?;
        left -= 1 << lowest;
    }
    sink.go_on()
}
