ghost use Rattle.std.specs.Prelude.{◌≤◌};

/// How many values an argument takes at a time: at least `start_inclusive`, at most `end_inclusive`.
#[derive(Clone, Copy)]
pub struct ValueRange {
    pub(crate) start_inclusive: u64,
    pub(crate) end_inclusive: u64,
    ghost ordered: { start_inclusive ≤ end_inclusive },
}
