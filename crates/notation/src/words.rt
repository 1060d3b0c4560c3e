ghost use Rattle.std.specs.Prelude.{◌≡◌, ◌+◌, ◌≤◌, length};
ghost use Rattle.notation.specs.Words.{blank, word_of, behind, uncommented};

/// Whether the byte is a space, a tab or a carriage return.
pub fn is_blank(byte: u8) -> bool
    ensures { result ≡ blank byte }
{
    byte == b' ' || byte == b'\t' || byte == b'\r'
}

/// The first word of a line, and what follows it; an empty word where there is none.
pub fn next_word(text: &[u8]) -> (&[u8], &[u8])
    ensures word { result.0.now ≡ word_of text.now }
    ensures rest { result.1.now ≡ behind text.now }
    ensures shorter { length result.0.now + length result.1.now ≤ length text.now }
{
    let start = text.iter().position(|b| !is_blank(*b));
    let rest = &text[start.unwrap_or(text.len())..];
    let end = rest.iter().position(|b| is_blank(*b));
    rest.split_at(end.unwrap_or(rest.len()))
}

/// A line without its comment, which `#` begins.
pub fn without_comment(line: &[u8]) -> &[u8]
    ensures { result.now ≡ uncommented line.now }
{
    let end = line.iter().position(|b| *b == b'#');
    &line[..end.unwrap_or(line.len())]
}
