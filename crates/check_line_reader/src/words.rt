//! Words: ASCII characters of which each stands for itself in an identifier (R6RS 4.2.4).

ghost use Rattle.std.specs.Prelude.{◌≡◌, ◌≤◌, length};
ghost use Rattle.check_line_reader.specs.Words.{begins_word, begins_number, is_in_word, word_size, ends_word};
ghost use Rattle.read_spelling.specs.Identifiers.{is_ascii_letter, is_special_initial, is_special_subsequent};

/// How many bytes of which each is in a word come first.
pub fn word_size(bytes: &[u8]) -> usize
    ensures size { result ≡ word_size bytes.now }
    ensures within { result ≤ length bytes.now }
{
    for (size, byte) in bytes.iter().enumerate() {
        if !is_in_word(*byte) {
            return size;
        }
    }
    bytes.len()
}

/// Whether a space, a closing parenthesis or the end comes first.
pub fn ends_word(bytes: &[u8]) -> bool
    ensures { result ≡ ends_word bytes.now }
{
    match bytes {
        [] => true,
        [first, ..] => *first == b' ' || *first == b')',
    }
}

/// Whether an identifier may begin with the byte.
pub fn begins_word(b: u8) -> bool
    ensures { result ≡ begins_word b }
{
    is_letter(b) || is_special_initial(b)
}

/// Whether a number without a sign may begin with the byte.
pub fn begins_number(b: u8) -> bool
    ensures { result ≡ begins_number b }
{
    b'0' <= b && b <= b'9'
}

fn is_in_word(b: u8) -> bool
    ensures { result ≡ is_in_word b }
{
    begins_word(b) || is_special_subsequent(b)
}

fn is_letter(b: u8) -> bool
    ensures { result ≡ is_ascii_letter b }
{
    (b'a' <= b && b <= b'z') || (b'A' <= b && b <= b'Z')
}

fn is_special_initial(b: u8) -> bool
    ensures { result ≡ is_special_initial b }
{
    b == b'!'
        || b == b'$'
        || b == b'%'
        || b == b'&'
        || b == b'*'
        || b == b'/'
        || b == b':'
        || b == b'<'
        || b == b'='
        || b == b'>'
        || b == b'?'
        || b == b'^'
        || b == b'_'
        || b == b'~'
}

fn is_special_subsequent(b: u8) -> bool
    ensures { result ≡ is_special_subsequent b }
{
    (b'0' <= b && b <= b'9') || b == b'+' || b == b'-' || b == b'.' || b == b'@'
}
