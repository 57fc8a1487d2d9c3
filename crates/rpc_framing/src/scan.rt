//! Where the text of a message ends.

ghost use Rattle.std.specs.Prelude.{◌≡◌, ◌≤◌, ◌<◌, ◌==◌, ℕ, drop, length};
ghost use Rattle.rpc_framing.specs.Scan.{after_outside, after_quoted, after_byte, end_of, at_start, IsScanned, IfOpen, IfAt};

use crate::FramingKind;

/// The deepest that brackets may nest.
const DEEPEST: u64 = 64;

/// Where a byte of a message stands.
#[derive(Clone, Copy)]
pub(crate) enum Place {
    Outside,
    /// In a string.
    Quoted,
    /// In a string, behind a backslash.
    Escaped,
}

/// What the bytes of a message so far leave: how deep brackets nest, and whether a string is open.
#[derive(Clone, Copy)]
pub(crate) struct Cursor {
    pub depth: u64,
    pub place: Place,
}

/// What bytes of a message come to.
#[derive(Clone, Copy)]
pub(crate) enum End {
    /// A whole text of this length stands at the front.
    At(usize),
    /// No end yet.
    Open(Cursor),
    /// The byte at this place is refused.
    Refused(usize, FramingKind),
}

fn after_outside(depth: u64, byte: u8) -> Cursor
    requires { depth ≤ 64 }
    ensures { result ≡ after_outside depth byte }
{
    match byte {
        b'"' => Cursor {
            depth,
            place: Place::Quoted,
        },
        b'{' | b'[' => Cursor {
            depth: depth + 1,
            place: Place::Outside,
        },
        b'}' | b']' => Cursor {
            depth: depth.saturating_sub(1),
            place: Place::Outside,
        },
        _ => Cursor {
            depth,
            place: Place::Outside,
        },
    }
}

fn after_quoted(depth: u64, byte: u8) -> Cursor
    ensures { result ≡ after_quoted depth byte }
{
    let place = match byte {
        b'"' => Place::Outside,
        b'\\' => Place::Escaped,
        _ => Place::Quoted,
    };
    Cursor { depth, place }
}

impl Cursor {
    pub(crate) fn start() -> Cursor
        ensures { result ≡ at_start }
    {
        Cursor {
            depth: 0,
            place: Place::Outside,
        }
    }

    fn after(self, byte: u8) -> Cursor
        requires { self.depth ≤ 64 }
        ensures value { result ≡ after_byte self byte }
        ensures shallow { result.depth ≤ 65 }
    {
        match self.place {
            Place::Outside => after_outside(self.depth, byte),
            Place::Quoted => after_quoted(self.depth, byte),
            Place::Escaped => Cursor {
                depth: self.depth,
                place: Place::Quoted,
            },
        }
    }
}

/// Goes on through a text behind so many bytes of it.
pub(crate) fn scan(limit: u64, text: &[u8], count: usize, cursor: Cursor) -> End
    requires scanned { IsScanned limit text.now count cursor }
    ensures value { result ≡ end_of limit text.now }
    ensures open { IfOpen result (λ c. IsScanned limit text.now (length text.now) c) }
    ensures within { IfAt result (λ n. n ≤ length text.now) }
{
    let mut cursor = cursor;
    'bytes: for place in count..text.len() {
        let next = cursor.after(text[place]);
        if next.depth > DEEPEST {
            return End::Refused(place, FramingKind::TooDeep);
        }
        if place as u64 == limit {
            return End::Refused(place, FramingKind::TooLong);
        }
        if next.depth == 0 {
            return End::At(place + 1);
        }
        cursor = next;
    }
    End::Open(cursor)
}
