ghost use Rattle.std.specs.Prelude.{◌≡◌};

use std::fmt;

/// Bytes as a reader wants them: printable ASCII as it is, anything else as `\xHH`.
#[derive(Clone, Copy)]
pub struct Text<'a> {
    bytes: &'a [u8],
}

impl<'a> Text<'a> {
    pub fn new(bytes: &'a [u8]) -> Text<'a>
        ensures { result.bytes.now ≡ bytes.now }
    {
        Text { bytes }
    }
}

impl fmt::Display for Text<'_> {
    fn fmt<W: fmt::Write>(&self, f: &mut fmt::Formatter<W>) -> fmt::Result {
        for &byte in self.bytes {
            if byte.is_ascii_graphic() && byte != b'\\' || byte == b' ' {
                write!(f, "{}", byte as char)?;
            } else {
                write!(f, "\\x{byte:02X}")?;
            }
        }
        Ok(())
    }
}
