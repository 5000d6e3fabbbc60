//! The head of a request.

ghost use Rattle.std.specs.Prelude.{◌≡◌, ℕ, ◌≤◌, List, length, drop, IfSome, IfNone};
ghost use Rattle.httparse.specs.Grammar.{RequestHead, ReadsRequest};
ghost use Rattle.httparse.specs.Spans.{IsRequestWithin, IsRequestOf};
ghost use Rattle.http_requests.specs.Heads.{IsGood};
ghost use Rattle.http_requests.specs.Shows.{ShowsHead};

use crate::fields::{stated_length, states_coding};
use crate::limits::{MAX_HEAD, MAX_HEADER_LINES};
use httparse::Status;
use httparse::spans::{EMPTY_HEADER_SPAN, HeaderSpan, RequestSpans, parse_request};

/// The contents of a request's head (RFC 9112, sections 2 to 6).
#[derive(Clone, Copy, Drop)]
pub struct Head<'a> {
    /// The method, as it is in the request line.
    pub method: &'a [u8],
    /// The request target, as it is in the request line.
    pub target: &'a [u8],
    /// The length of the body that the head states, or `MAX_BODY + 1` if it is larger.
    pub stated: Option<usize>,
    /// Whether there is a `transfer-encoding` line.
    pub is_coded: bool,
    /// The length of the head in bytes.
    pub len: usize,
}

/// The head that the bytes begin with, if it has no more lines than there are headers.
fn spans_of(front: &[u8], headers: &mut [HeaderSpan]) -> Option<RequestSpans>
    ensures within { IfSome result (IsRequestWithin front.now headers.new) }
    ensures found { IfSome result (IsRequestOf front.now headers.new) }
    ensures none { IfNone result ((h : RequestHead) (rest : List ℕ) → ReadsRequest front.now h rest
        → length h.fields ≤ length headers.old → ⊥) }
{
    match parse_request(front, headers) {
        Ok(Status::Complete(head)) => Some(head),
        _ => None,
    }
}

/// The contents of the head that the bytes begin with (RFC 9112, sections 2 to 6). `None` if there is none of at most
/// `MAX_HEAD` bytes and `MAX_HEADER_LINES` header lines, or if it has two `content-length` lines or one whose value
/// isn't all digits.
pub fn read_head(bytes: &[u8]) -> Option<Head<'_>>
    ensures within { IfSome result (λ r. r.len ≤ length bytes.now) }
    ensures found { IfSome result (λ r. (h : RequestHead) × IsGood bytes.now h (drop r.len bytes.now) × ShowsHead r h) }
    ensures none { IfNone result ((h : RequestHead) (rest : List ℕ) → ¬ (IsGood bytes.now h rest)) }
{
    let front = &bytes[..bytes.len().min(MAX_HEAD)];
    let mut headers = [EMPTY_HEADER_SPAN; MAX_HEADER_LINES];
    let Some(spans) = spans_of(front, &mut headers) else {
        return None;
    };
    let lines = &headers[..spans.headers];
    let Some(stated) = stated_length(front, lines) else {
        return None;
    };
    Some(Head {
        method: spans.method.of(front),
        target: spans.path.of(front),
        stated,
        is_coded: states_coding(front, lines),
        len: spans.len,
    })
}
