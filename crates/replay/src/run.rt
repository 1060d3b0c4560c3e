ghost use Rattle.std.specs.Prelude.{◌≡◌, map, IfOk};
ghost use Rattle.calls.specs.Runs.{start, answers, plain};
ghost use Rattle.calls.specs.Called.{called};
ghost use Rattle.calls.specs.Law.{Exact, MarksRise, AllListed, Sound, Stable, StableMissing};
ghost use Rattle.replay.specs.Said.{said};
ghost use Rattle.replay.specs.Under.{under};

use super::answer::Answer;
use super::book_held::HeldBook;
use super::under::Layers;
use calls::Call;
use std::alloc::{AllocError, Global};

/// Runs the calls on a new book, and hands back their answers; report, first and find ask the book itself.
/// It fails only for want of memory.
pub fn replay(heap: Global, calls: &[Call<&[u8]>]) -> Result<Vec<Answer>, AllocError>
    ensures exact { IfOk result (λ os. Exact plain (map called calls.now) (map said os.items)) }
    ensures marks { IfOk result (λ os. MarksRise (map said os.items)) }
    ensures lists { IfOk result (λ os. AllListed plain (map called calls.now) (map said os.items)) }
    ensures stable { IfOk result (λ os. Stable (map called calls.now) (map said os.items)) }
    ensures missing { IfOk result (λ os. StableMissing (map called calls.now) (map said os.items)) }
    ensures sound { IfOk result (λ os. Sound plain (map called calls.now) (map said os.items)) }
{
    run(heap, Layers::None, calls)
}

/// The same, with report, first and find asking the book under layers of standard flags.
pub fn replay_under(
    heap: Global,
    layers: Layers,
    calls: &[Call<&[u8]>],
) -> Result<Vec<Answer>, AllocError>
    ensures exact { IfOk result (λ os. Exact (under layers) (map called calls.now) (map said os.items)) }
    ensures marks { IfOk result (λ os. MarksRise (map said os.items)) }
    ensures lists { IfOk result (λ os. AllListed (under layers) (map called calls.now) (map said os.items)) }
    ensures sound { IfOk result (λ os. Sound (under layers) (map called calls.now) (map said os.items)) }
{
    run(heap, layers, calls)
}

// the calls one after another
fn run(heap: Global, layers: Layers, calls: &[Call<&[u8]>]) -> Result<Vec<Answer>, AllocError>
    ensures { IfOk result (λ os. map said os.items ≡ answers (under layers) start (map called calls.now)) }
{
    let mut told = Vec::new(heap);
    let mut held = HeldBook::new(heap)?;
    for call in calls {
        let (next, answer) = held.call(heap, layers, *call);
        held = next;
        told.push(answer?)?;
    }
    Ok(told)
}
