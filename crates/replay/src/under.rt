ghost use Rattle.std.specs.Prelude.{◌≡◌, true, IfOk, OnErr};
ghost use Rattle.calls.specs.Called.{called};
ghost use Rattle.replay.specs.Said.{said, asked_answer, asks_report};
ghost use Rattle.replay.specs.Under.{under};

use super::answer::Answer;
use super::ask::ask;
use calls::Call;
use form::{FormSource, Keyed};
use layers::StandardFlags;
use std::alloc::{AllocError, Global};

/// How many layers of standard flags lie over the book that is asked.
#[derive(Clone, Copy)]
pub enum Layers {
    None,
    One,
    Two,
    Three,
}

/// What a built book answers under layers of standard flags, to a call other than reopen.
pub(crate) fn ask_under<K: Keyed>(
    heap: Global,
    layers: Layers,
    form: &K,
    call: Call<&[u8]>,
) -> Result<Answer, AllocError>
    ensures answer { IfOk result (λ a. said a ≡ asked_answer (under layers (K.FormSource.form form.now)) (called call.entry)) }
    ensures memory { OnErr result (asks_report (called call.entry) ≡ true) }
{
    // each number of layers is a type of its own: a trait with a generic method for what is asked under them would be no plainer
    match layers {
        Layers::None => ask(heap, form, call),
        Layers::One => ask(heap, &StandardFlags::new(form), call),
        Layers::Two => ask(heap, &StandardFlags::new(StandardFlags::new(form)), call),
        Layers::Three => {
            let two = StandardFlags::new(StandardFlags::new(form));
            ask(heap, &StandardFlags::new(two), call)
        }
    }
}
