use super::reader::CallLine;
use calls::Call;
use std::alloc::{AllocError, Global};

/// The calls of the lines, in order.
pub(crate) fn calls_of<'a>(
    heap: Global,
    lines: &'a [CallLine<'_>],
) -> Result<Vec<Call<&'a [u8]>>, AllocError> {
    lines.iter().map(|line| line.line.lent()).collect(heap)
}
