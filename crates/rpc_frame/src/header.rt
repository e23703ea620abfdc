//! The header of a frame, read byte by byte. A header has one line of `Content-Length` and at most
//! one of `Content-Type`, each ended by CR LF, and then an empty line. Names are read without
//! regard to ASCII case. A line has at most 1,024 bytes before its CR LF.

ghost use Rattle.std.specs.Prelude.{◌≡◌, [], slice_get};
ghost use Rattle.std.specs.declared.option.Option.TheVariants.{Some};
ghost use Rattle.rpc_frame.specs.Framing.{IsFound};
ghost use Rattle.rpc_frame.specs.HeaderMachine.{start, at, step, step_line_start, step_prefix, step_fork};
ghost use Rattle.rpc_frame.specs.HeaderMachine.{step_name, step_spaces, step_digits, step_digit, step_value};
ghost use Rattle.rpc_frame.specs.HeaderMachine.{step_feed, field_name, value_part, said_by};
ghost use Rattle.rpc_frame.specs.HeaderMachine.{IsLive, IsCounted, HasRead, HasStopped};

/// The fields of a header.
#[derive(Clone, Copy, Debug)]
pub enum Field {
    ContentLength,
    ContentType,
}

/// Where in a header a reader stands.
#[derive(Clone, Copy, Debug)]
pub enum Part {
    /// At the start of a line.
    LineStart,
    /// After so many letters of `Content-`, with which each name begins.
    Prefix { letters: usize },
    /// After so many letters of the field's name behind `Content-`.
    Name { field: Field, letters: usize },
    /// Before the first digit of a length; the line has room for `left` more bytes.
    Spaces { left: u16 },
    /// After so many digits of a length, which say `value`.
    Digits { left: u16, count: u8, value: u64 },
    /// In the value of `Content-Type`.
    Value { left: u16 },
    /// After the CR of a field's line.
    LineFeed,
    /// After the CR of the empty line.
    LastFeed,
    /// After the header.
    Whole,
}

/// What was read of a header: which fields stood in whole lines, and where in it the reader stands.
#[derive(Clone, Copy, Debug)]
pub struct Header {
    /// The bytes of content that `Content-Length` says.
    pub length: Option<u64>,
    /// Whether `Content-Type` stood.
    pub typed: bool,
    pub part: Part,
}

/// How many bytes of a header were read, and where that leaves its reader.
#[derive(Clone, Copy, Debug)]
pub struct Progress {
    pub header: Header,
    pub read: usize,
}

/// What stands at the front of some bytes.
#[derive(Clone, Copy, Debug)]
pub enum Found {
    /// A header of so many bytes, and so many of content.
    Frame { header: usize, content: usize },
    /// Nothing, or a frame that is not whole.
    Unfinished,
    /// Bytes up to this place with which no header begins.
    Bad { place: usize },
    /// A header that says so much content, more than a frame may have.
    Long { said: u64 },
}

// The most bytes of content that a frame may have.
const MOST_CONTENT: u64 = 16_777_216;

// What a line of 1,024 bytes has room for behind `Content-Length:`.
const LENGTH_ROOM: u16 = 1009;

// The same behind `Content-Type:`.
const TYPE_ROOM: u16 = 1011;

impl Header {
    /// Before the first byte.
    pub fn new() -> Header
        ensures { result ≡ start }
    {
        Header {
            length: None,
            typed: false,
            part: Part::LineStart,
        }
    }

    /// After the next byte. `None` where no header goes on with it.
    pub fn after(self, byte: u8) -> Option<Header>
        requires { IsLive self }
        ensures { result ≡ step self byte }
    {
        match self.part {
            Part::LineStart => self.after_line_start(byte),
            Part::Prefix { letters } => self.after_prefix(letters, byte),
            Part::Name { field, letters } => self.after_name(field, letters, byte),
            Part::Spaces { left } => self.after_spaces(left, byte),
            Part::Digits { left, count, value } => self.after_digits(left, count, value, byte),
            Part::Value { left } => self.after_value(left, byte),
            Part::LineFeed => self.after_feed(Part::LineStart, byte),
            Part::LastFeed => self.after_feed(Part::Whole, byte),
            Part::Whole => None,
        }
    }

    // What a whole header says. `None` before its end.
    fn said(self) -> Option<u64>
        ensures { result ≡ said_by self }
    {
        match self.part {
            Part::Whole => self.length,
            _ => None,
        }
    }

    fn at(self, part: Part) -> Header
        ensures { result ≡ at self part }
    {
        Header {
            length: self.length,
            typed: self.typed,
            part,
        }
    }

    fn after_line_start(self, byte: u8) -> Option<Header>
        ensures { result ≡ step_line_start self byte }
    {
        if byte == b'\r' {
            return if self.length.is_some() {
                Some(self.at(Part::LastFeed))
            } else {
                None
            };
        }
        if self.length.is_some() && self.typed {
            return None;
        }
        self.after_prefix(0, byte)
    }

    fn after_prefix(self, letters: usize, byte: u8) -> Option<Header>
        ensures { result ≡ step_prefix self letters byte }
    {
        match next_letter(b"content-", letters) {
            Some(letter) if byte.to_ascii_lowercase() == letter => Some(self.at(Part::Prefix {
                letters: letters + 1,
            })),
            Some(_) => None,
            None => self.after_fork(byte),
        }
    }

    fn after_fork(self, byte: u8) -> Option<Header>
        ensures { result ≡ step_fork self byte }
    {
        match byte.to_ascii_lowercase() {
            b'l' if self.length.is_none() => Some(self.at(Part::Name {
                field: Field::ContentLength,
                letters: 1,
            })),
            b't' if !self.typed => Some(self.at(Part::Name {
                field: Field::ContentType,
                letters: 1,
            })),
            _ => None,
        }
    }

    fn after_name(self, field: Field, letters: usize, byte: u8) -> Option<Header>
        ensures { result ≡ step_name self field letters byte }
    {
        match next_letter(field.name(), letters) {
            Some(letter) if byte.to_ascii_lowercase() == letter => Some(self.at(Part::Name {
                field,
                letters: letters + 1,
            })),
            None if byte == b':' => Some(self.at(field.value_part())),
            _ => None,
        }
    }

    fn after_spaces(self, left: u16, byte: u8) -> Option<Header>
        ensures { result ≡ step_spaces self left byte }
    {
        if byte == b' ' {
            return if left >= 2 {
                Some(self.at(Part::Spaces { left: left - 1 }))
            } else {
                None
            };
        }
        self.after_digit(left, 0, 0, byte)
    }

    fn after_digits(self, left: u16, count: u8, value: u64, byte: u8) -> Option<Header>
        requires { IsCounted count value }
        ensures { result ≡ step_digits self left count value byte }
    {
        if byte == b'\r' {
            return Some(Header {
                length: Some(value),
                typed: self.typed,
                part: Part::LineFeed,
            });
        }
        self.after_digit(left, count, value, byte)
    }

    fn after_digit(self, left: u16, count: u8, value: u64, byte: u8) -> Option<Header>
        requires { IsCounted count value }
        ensures { result ≡ step_digit self left count value byte }
    {
        if !byte.is_ascii_digit() || count >= 15 || left < 1 {
            return None;
        }
        Some(self.at(Part::Digits {
            left: left - 1,
            count: count + 1,
            value: value * 10 + (byte - b'0') as u64,
        }))
    }

    fn after_value(self, left: u16, byte: u8) -> Option<Header>
        ensures { result ≡ step_value self left byte }
    {
        if byte == b'\r' {
            return Some(Header {
                length: self.length,
                typed: true,
                part: Part::LineFeed,
            });
        }
        if byte == b'\n' || left < 1 {
            return None;
        }
        Some(self.at(Part::Value { left: left - 1 }))
    }

    fn after_feed(self, part: Part, byte: u8) -> Option<Header>
        ensures { result ≡ step_feed self part byte }
    {
        if byte == b'\n' {
            Some(self.at(part))
        } else {
            None
        }
    }
}

impl Progress {
    /// Before the first byte.
    pub fn new() -> Progress
        ensures { HasRead [] result }
    {
        Progress {
            header: Header::new(),
            read: 0,
        }
    }

    /// Reads on in these bytes, up to the header's end or to a byte that no header has there. Reads
    /// none anew that was read.
    pub fn read_on(self, bytes: &[u8]) -> Progress
        requires { HasRead bytes.now self }
        ensures read { HasRead bytes.now result }
        ensures stopped { HasStopped bytes.now result }
    {
        let mut header = self.header;
        let mut read = self.read;
        'bytes: while read < bytes.len() {
            match header.after(bytes[read]) {
                Some(next) => header = next,
                None => return Progress { header, read },
            }
            read += 1;
        }
        Progress { header, read }
    }

    /// What stands at the front of these bytes, of which no more can be read.
    pub fn found(self, bytes: &[u8]) -> Found
        requires read { HasRead bytes.now self }
        requires stopped { HasStopped bytes.now self }
        ensures { IsFound bytes.now result }
    {
        match self.header.said() {
            Some(said) => self.behind_header(said, bytes),
            None if self.read < bytes.len() => Found::Bad { place: self.read },
            None => Found::Unfinished,
        }
    }

    // What stands at the front of these bytes, which begin with a whole header.
    fn behind_header(self, said: u64, bytes: &[u8]) -> Found
        requires read { HasRead bytes.now self }
        requires says { said_by self.header ≡ Some said }
        ensures { IsFound bytes.now result }
    {
        if said > MOST_CONTENT {
            return Found::Long { said };
        }
        if ((bytes.len() - self.read) as u64) < said {
            return Found::Unfinished;
        }
        Found::Frame {
            header: self.read,
            content: said as usize,
        }
    }
}

impl Field {
    // The name behind `Content-`, in lower case.
    fn name(self) -> &'static [u8]
        ensures { result.now ≡ field_name self }
    {
        match self {
            Field::ContentLength => b"length",
            Field::ContentType => b"type",
        }
    }

    // What comes after the name's colon.
    fn value_part(self) -> Part
        ensures { result ≡ value_part self }
    {
        match self {
            Field::ContentLength => Part::Spaces { left: LENGTH_ROOM },
            Field::ContentType => Part::Value { left: TYPE_ROOM },
        }
    }
}

// The letter of a name after so many.
fn next_letter(name: &[u8], letters: usize) -> Option<u8>
    ensures { result ≡ slice_get name.now letters }
{
    name.get(letters).copied()
}
