//! A head that comes byte by byte.

ghost use Rattle.std.specs.Prelude.{◌≡◌, ◌∷◌, ◌++◌, [], ℕ, List, IsTrue};
ghost use Rattle.http_requests.specs.Places.{BeginsLine, IsAt, Leads, is_visible};
ghost use Rattle.http_requests.specs.Reading.{HasCome};

use crate::limits::MAX_HEADER_LINES;
use crate::progress::{Progress, progress_of};
use httparse::{is_header_name_token, is_header_value_token, is_method_token};

/// The place in a head after the bytes so far.
#[derive(Clone, Copy)]
enum Place {
    /// Before the first byte.
    Start,
    /// In the method.
    Method,
    /// After the space that follows the method.
    BeforeTarget,
    /// In the target.
    Target,
    /// In the version, after this many of its bytes.
    Version(usize),
    /// After the version.
    VersionEnd,
    /// Between the two bytes that end a line.
    Feed,
    /// At the start of a header line or of the empty line.
    Line,
    /// Between the two bytes of the empty line.
    LastFeed,
    /// In the name of a header line.
    Name,
    /// In the value of a header line.
    Value,
    /// At the end.
    Whole,
    /// An unknown place, or no head at all.
    Elsewhere,
}

/// The beginning of a version.
const VERSION: &[u8] = b"HTTP/1.";

/// Whether it is a visible ASCII byte.
fn is_visible(byte: u8) -> bool
    ensures { result ≡ is_visible byte }
{
    b' ' < byte && byte < 127
}

/// The place after a byte of the version.
fn in_version(came: usize, byte: u8) -> Place
    ensures { Leads (Place.Version came) byte result }
{
    if came < VERSION.len() {
        if byte == VERSION[came] {
            return Place::Version(came + 1);
        }
        return Place::Elsewhere;
    }
    if came == VERSION.len() && (byte == b'0' || byte == b'1') {
        return Place::VersionEnd;
    }
    Place::Elsewhere
}

/// The place after a byte in a header line or at the end of a line.
fn in_line(place: Place, byte: u8) -> Place
    ensures { Leads place byte result }
{
    match place {
        Place::VersionEnd if byte == b'\r' => Place::Feed,
        Place::VersionEnd if byte == b'\n' => Place::Line,
        Place::Feed if byte == b'\n' => Place::Line,
        Place::Line if byte == b'\r' => Place::LastFeed,
        Place::Line if byte == b'\n' => Place::Whole,
        Place::LastFeed if byte == b'\n' => Place::Whole,
        Place::Name if is_header_name_token(byte) => Place::Name,
        Place::Name if byte == b':' => Place::Value,
        Place::Value if is_header_value_token(byte) => Place::Value,
        Place::Value if byte == b'\r' => Place::Feed,
        Place::Value if byte == b'\n' => Place::Line,
        _ => Place::Elsewhere,
    }
}

/// The place after a byte that begins no header line: `Elsewhere` if it isn't known that the byte may follow.
fn next_place(place: Place, byte: u8) -> Place
    ensures { Leads place byte result }
{
    match place {
        Place::Start if is_method_token(byte) => Place::Method,
        Place::Method if is_method_token(byte) => Place::Method,
        Place::Method if byte == b' ' => Place::BeforeTarget,
        Place::BeforeTarget if is_visible(byte) => Place::Target,
        Place::Target if is_visible(byte) => Place::Target,
        Place::Target if byte == b' ' => Place::Version(0),
        Place::Version(came) => in_version(came, byte),
        _ => in_line(place, byte),
    }
}

/// Whether the byte begins a header line.
fn begins_line(place: Place, byte: u8) -> bool
    ensures { IsTrue result → BeginsLine place byte }
{
    match place {
        Place::Line => is_header_name_token(byte),
        _ => false,
    }
}

/// The place in a head after the bytes so far, and how many header lines began before it.
///
/// For most bytes the place decides the progress. All bytes are parsed only if it doesn't.
#[derive(Clone, Copy)]
pub struct Spot {
    place: Place,
    lines: usize,
}

impl Spot {
    /// Before the first byte.
    pub fn start() -> Spot
        ensures { IsAt result [] }
    {
        Spot {
            place: Place::Start,
            lines: 0,
        }
    }

    /// After one more byte.
    pub fn next(self, byte: u8) -> Spot
        ensures { (bytes : List ℕ) → IsAt self bytes → IsAt result (bytes ++ byte ∷ []) }
    {
        if self.lines < MAX_HEADER_LINES && begins_line(self.place, byte) {
            return Spot {
                place: Place::Name,
                lines: self.lines + 1,
            };
        }
        Spot {
            place: next_place(self.place, byte),
            lines: self.lines,
        }
    }

    /// The progress of a head, given the bytes so far. Like `progress_of`, but the bytes are parsed only if the place
    /// doesn't decide.
    pub fn progress(self, bytes: &[u8]) -> Progress
        requires { IsAt self bytes.now }
        ensures { HasCome result bytes.now }
    {
        match self.place {
            Place::Elsewhere => progress_of(bytes),
            Place::Whole => {
                if self.lines <= MAX_HEADER_LINES {
                    Progress::Whole
                } else {
                    progress_of(bytes)
                }
            }
            _ => Progress::Waits,
        }
    }
}
