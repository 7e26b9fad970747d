//! Lines and the blanks in them.
ghost use Rattle.std.specs.Prelude.{◌≡◌};
ghost use Rattle.deb_text.specs.Lines.{is_blank_line as blank_line};

/// Whether each byte of a line, its line feed not counted, is a space or a tab, as is true of an empty line
/// too. Takes no memory.
/// Source: this project's own.
pub fn is_blank_line(line: &[u8]) -> bool
    ensures { result ≡ blank_line line.now }
{
    line.iter().all(|b| *b == b' ' || *b == b'\t')
}
