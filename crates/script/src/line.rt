use super::spelling::Spelled;
use calls::{Bounds, Call, Record};
use form::RangeFault;

/// A line of a script that is a call.
pub type Line = Call<Spelled>;

/// A record as a line gives it, or why its range is refused when it is made; the line is a call all the same.
pub(crate) type Given = Result<Record<Spelled, Bounds>, RangeFault>;
