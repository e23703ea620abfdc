//! Classes of bytes.
ghost use Rattle.std.specs.Prelude.{◌≡◌, ◌≤◌, length};
ghost use Rattle.std.specs.List.{prefix_len};
ghost use Rattle.tla_lexeme.specs.LexemeSets.{is_in};
ghost use Rattle.tla_lexeme.specs.declared.class.Class.TheVariants.{Blank, Escaped};

/// A class of characters that are ASCII.
#[derive(Clone, Copy, Debug, PartialEq, Eq)]
pub enum Class {
    Letter,
    /// A letter, a digit or `_`.
    WordChar,
    Digit,
    Binary,
    Octal,
    Hexadecimal,
    Dash,
    EqualSign,
    /// Any byte but a line feed and a carriage return.
    InLine,
    /// A space, a tab, a form feed or a byte of a line end.
    Blank,
    /// A space or a tab.
    Space,
    /// What may follow a backslash in a string.
    Escaped,
}

impl Class {
    /// Whether a byte is of the class.
    pub fn has(self, byte: u8) -> bool
        ensures { result ≡ is_in self byte }
    {
        match self {
            Class::Letter => byte.is_ascii_alphabetic(),
            Class::WordChar => byte.is_ascii_alphanumeric() || byte == b'_',
            Class::Digit => byte.is_ascii_digit(),
            Class::Binary => byte == b'0' || byte == b'1',
            Class::Octal => b'0' <= byte && byte <= b'7',
            Class::Hexadecimal => byte.is_ascii_hexdigit(),
            Class::Dash => byte == b'-',
            Class::EqualSign => byte == b'=',
            Class::InLine => !(byte == b'\n' || byte == b'\r'),
            Class::Blank => is_blank(byte),
            Class::Space => byte == b' ' || byte == b'\t',
            Class::Escaped => is_escaped(byte),
        }
    }
}

fn is_blank(byte: u8) -> bool
    ensures { result ≡ is_in Blank byte }
{
    byte == b' ' || byte == b'\t' || byte == 0x0c || byte == b'\n' || byte == b'\r'
}

fn is_escaped(byte: u8) -> bool
    ensures { result ≡ is_in Escaped byte }
{
    byte == b'"' || byte == b'\\' || byte == b't' || byte == b'n' || byte == b'f' || byte == b'r'
}

/// How many bytes of a class a text begins with.
pub fn run_len(class: Class, text: &[u8]) -> usize
    ensures value { result ≡ prefix_len (is_in class) text.now }
    ensures within { result ≤ length text.now }
{
    for (i, byte) in text.iter().enumerate() {
        if !class.has(*byte) {
            return i;
        }
    }
    text.len()
}
