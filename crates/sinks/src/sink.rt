ghost use Rattle.std.specs.Prelude.{◌≡◌, Bool, true, false, List, [], ◌∷◌, ◌++◌, length, is_some, nat_le, refl};
ghost use Rattle.std.proofs.Common.{◌∙◌};
ghost use borrow.Author.Tests.{clash, leb-true};
ghost use Rattle.rules.specs.declared.breach.Breach.{Breach};
ghost use Rattle.sinks.specs.Flow.{flow};
ghost use Rattle.sinks.specs.Sinks.{bump, keep, kept_stays, put, put_stays, fold, fold_none, fold_more};

use rules::Breach;
use std::ops::ControlFlow;

/// Something that breaches are offered to, one after another.
pub trait Sink {
    // `after s bs t`: a sink in the state s, offered bs in order, is in the state t
    ghost after: { Self → List Breach → Self → Type 0 };

    // it takes no more
    ghost full: { Self → Bool };

    ghost none: { (s : Self) → after s [] s };

    ghost more: { (s t u : Self) (xs ys : List Breach) → after s xs t → after t ys u → after s (xs ++ ys) u };

    ghost stays: { (s : Self) (xs : List Breach) → full s ≡ true → after s xs s };

    /// Offers a breach, and tells whether to go on.
    fn offer(&mut self, breach: Breach) -> ControlFlow<()>
        ensures took { after self.old (breach ∷ []) self.new }
        ensures goes { result ≡ flow (full self.new) };

    /// Whether the sink takes no more.
    fn is_full(&self) -> bool
        ensures { result ≡ full self.now };

    /// Goes on while the sink takes more.
    fn go_on(&self) -> ControlFlow<()>
        ensures { result ≡ flow (full self.now) }
    {
        if self.is_full() {
            ControlFlow::Break(())
        } else {
            ControlFlow::Continue(())
        }
    }
}

/// A sink that counts what it is offered.
#[derive(Drop)]
pub struct Count {
    pub count: usize,
}

impl Sink for Count {
    ghost after = { λ s bs t. t.count ≡ fold bump s.count bs };

    ghost full = { λ s. false };

    ghost none = { λ s. fold_none bump s.count };

    ghost more = { λ s t u xs ys a b. fold_more bump s.count t.count u.count xs ys a b };

    ghost stays = { λ s xs f. absurd (clash f) };

    fn offer(&mut self, _breach: Breach) -> ControlFlow<()> {
        self.count = self.count.saturating_add(1);
        self.go_on()
    }

    fn is_full(&self) -> bool {
        false
    }
}

/// A sink that keeps the first.
#[derive(Drop)]
pub struct First {
    pub kept: Option<Breach>,
}

impl Sink for First {
    ghost after = { λ s bs t. t.kept ≡ fold keep s.kept bs };

    ghost full = { λ s. is_some s.kept };

    ghost none = { λ s. fold_none keep s.kept };

    ghost more = { λ s t u xs ys a b. fold_more keep s.kept t.kept u.kept xs ys a b };

    ghost stays = { λ s xs f. kept_stays s.kept xs f };

    fn offer(&mut self, breach: Breach) -> ControlFlow<()> {
        if self.kept.is_none() {
            self.kept = Some(breach);
        }
        self.go_on()
    }

    fn is_full(&self) -> bool {
        self.kept.is_some()
    }
}

/// A sink that fills a list from the front, and leaves the rest of it.
// Room and count, and not a slice that shrinks: `after` speaks of the whole list, the front that is filled too.
#[derive(Drop)]
pub struct Fill<'a> {
    pub room: &'a mut [Breach],
    pub count: usize,
}

impl Sink for Fill<'_> {
    ghost after = { λ s bs t. (t.room.ghost_name ≡ s.room.ghost_name) × ((t.room.now, t.count) ≡ fold put (s.room.now, s.count) bs) };

    ghost full = { λ s. nat_le (length s.room.now) s.count };

    ghost none = { λ s. (refl, fold_none put (s.room.now, s.count)) };

    ghost more = { λ s t u xs ys a b. (b.0 ∙ a.0, fold_more put (s.room.now, s.count) (t.room.now, t.count) (u.room.now, u.count) xs ys a.1 b.1) };

    ghost stays = { λ s xs f. (refl, put_stays s.room.now s.count xs (leb-true (length s.room.now) s.count f)) };

    fn offer(&mut self, breach: Breach) -> ControlFlow<()> {
        if self.count < self.room.len() {
            self.room[self.count] = breach;
            self.count += 1;
        }
        self.go_on()
    }

    fn is_full(&self) -> bool {
        self.room.len() <= self.count
    }
}
