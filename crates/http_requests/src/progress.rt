//! The progress of a head whose bytes are still coming.

ghost use Rattle.http_requests.specs.Reading.{HasCome};

use crate::limits::MAX_HEADER_LINES;
use httparse::Status;
use httparse::spans::{EMPTY_HEADER_SPAN, parse_request};

/// The progress of a head of at most `MAX_HEADER_LINES` header lines.
#[derive(Clone, Copy)]
pub enum Progress {
    /// A whole head.
    Whole,
    /// No head yet, but the bytes may become one.
    Waits,
    /// Bytes that can't become a head.
    Hopeless,
}

/// The progress of a head in these bytes. The limit on a head's size isn't checked.
pub fn progress_of(bytes: &[u8]) -> Progress
    ensures { HasCome result bytes.now }
{
    let mut headers = [EMPTY_HEADER_SPAN; MAX_HEADER_LINES];
    match parse_request(bytes, &mut headers) {
        Ok(Status::Complete(_)) => Progress::Whole,
        Ok(Status::Partial) => Progress::Waits,
        Err(_) => Progress::Hopeless,
    }
}
