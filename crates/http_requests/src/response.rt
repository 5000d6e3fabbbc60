//! The texts of responses, written into memory that was reserved before, so that writing them can't fail.

ghost use Rattle.std.specs.Prelude.{[], ◌≡◌, ◌≤◌, ◌<◌, ◌+◌, ◌^◌, ◌++◌, length, vec_len, vec_capacity};
ghost use Rattle.std.specs.List.{flat_map, sum_by};
ghost use Rattle.http.specs.StatusCode.{IsStatusCode};
ghost use Rattle.values.specs.Refusals.{refusal_status};
ghost use Rattle.http_requests.specs.Responses.{phrase, media_type_text, response_head, response_text};
ghost use Rattle.http_requests.specs.Responses.{refusal_response};

use http::StatusCode;
use itoa::Buffer;
use values::Refusal;

/// The greatest size of a response's head in bytes, for any status, media type and body length.
pub const MAX_RESPONSE_HEAD: usize = 145;

/// The greatest size of a refusal's body in bytes.
pub const MAX_REFUSAL: usize = 28;

/// The media type of a body (RFC 9110, section 8.3).
#[derive(Clone, Copy)]
pub enum MediaType {
    /// `text/plain`
    PlainText,
    /// `application/octet-stream`
    Bytes,
}

impl MediaType {
    fn as_str(self) -> &'static str
        ensures value { result.now ≡ media_type_text self }
        ensures short { length result.now ≤ 24 }
    {
        match self {
            MediaType::PlainText => "text/plain",
            MediaType::Bytes => "application/octet-stream",
        }
    }
}

#[tactic(auto, unfolding(crate::specs::Responses::phrase))]
fn phrase_of(status: StatusCode) -> &'static str
    requires { IsStatusCode status }
    ensures value { result.now ≡ phrase status }
    ensures short { length result.now ≤ 31 }
{
    match status.canonical_reason() {
        Some(phrase) => phrase,
        None => "",
    }
}

fn status_of(refusal: Refusal) -> StatusCode
    ensures value { result ≡ refusal_status refusal }
    ensures valid { IsStatusCode result }
{
    match StatusCode::from_u16(refusal.status()) {
        Ok(status) => status,
        Err(_) => unreachable!(),
    }
}

/// Appends the pieces in order.
fn put_pieces(out: &mut Vec<u8>, pieces: &[&[u8]])
    requires { vec_len out.old + length (flat_map (λ p. p.now) pieces.now) ≤ vec_capacity out.old }
    ensures items { out.new.items ≡ out.old.items ++ flat_map (λ p. p.now) pieces.now }
    ensures len { vec_len out.new ≡ vec_len out.old + length (flat_map (λ p. p.now) pieces.now) }
    ensures capacity { vec_capacity out.old ≤ vec_capacity out.new }
{
    for piece in pieces {
        match out.extend_from_slice(piece) {
            Ok(()) => {}
            Err(_) => unreachable!(),
        }
    }
}

/// Appends the head of a response with a body of `size` bytes.
fn put_head(out: &mut Vec<u8>, status: StatusCode, media: MediaType, size: usize)
    requires valid { IsStatusCode status }
    requires space { vec_len out.old + MAX_RESPONSE_HEAD ≤ vec_capacity out.old }
    ensures items { out.new.items ≡ out.old.items ++ response_head status media size }
    ensures len { vec_len out.new ≤ vec_len out.old + MAX_RESPONSE_HEAD }
    ensures capacity { vec_capacity out.old ≤ vec_capacity out.new }
{
    let code = status.as_str().as_bytes();
    let phrase = phrase_of(status).as_bytes();
    let media_type = media.as_str().as_bytes();
    let mut digits = Buffer::new();
    let length = digits.format(size).as_bytes();
    put_pieces(
        out,
        &[
            b"HTTP/1.1 ".as_slice(),
            code,
            b" ",
            phrase,
            b"\r\ncontent-type: ",
            media_type,
            b"\r\ncontent-length: ",
            length,
            b"\r\nconnection: close\r\n\r\n",
        ],
    );
}

/// Appends to `out` the head of a response (RFC 9112, sections 4 and 5) with status 200 and a body of `size` bytes.
pub fn begin_response(out: &mut Vec<u8>, media: MediaType, size: usize)
    requires { vec_len out.old + MAX_RESPONSE_HEAD ≤ vec_capacity out.old }
    ensures items { out.new.items ≡ out.old.items ++ response_head 200 media size }
    ensures len { vec_len out.new ≤ vec_len out.old + MAX_RESPONSE_HEAD }
    ensures capacity { vec_capacity out.old ≤ vec_capacity out.new }
{
    put_head(out, StatusCode::OK, media, size);
}

/// The total length of the pieces.
fn total_len(pieces: &[&[u8]]) -> usize
    requires { sum_by (λ p. length p.now) pieces.now < 2 ^ 64 }
    ensures { result ≡ sum_by (λ p. length p.now) pieces.now }
{
    pieces.iter().map(|piece| piece.len()).sum()
}

/// A response whose body is the pieces in order, in memory that was reserved before.
fn respond_in_pieces(
    mut room: Vec<u8>,
    status: StatusCode,
    media: MediaType,
    body: &[&[u8]],
) -> Vec<u8>
    requires valid { IsStatusCode status }
    requires empty { room.items ≡ [] }
    requires space { MAX_RESPONSE_HEAD + length (flat_map (λ p. p.now) body.now) ≤ vec_capacity room }
    ensures { result.items ≡ response_text status media (flat_map (λ p. p.now) body.now) }
{
    put_head(&mut room, status, media, total_len(body));
    put_pieces(&mut room, body);
    room
}

/// A response (RFC 9112, sections 4 and 5) with status 200, in memory that was reserved before.
pub fn respond(room: Vec<u8>, media: MediaType, body: &[u8]) -> Vec<u8>
    requires empty { room.items ≡ [] }
    requires space { MAX_RESPONSE_HEAD + length body.now ≤ vec_capacity room }
    ensures { result.items ≡ response_text 200 media body.now }
{
    respond_in_pieces(room, StatusCode::OK, media, &[body])
}

/// The response of a refusal, in memory that was reserved before. Its body is the word `refused`, the refusal's number
/// and its name, and a line feed.
pub fn refuse(room: Vec<u8>, refusal: Refusal) -> Vec<u8>
    requires empty { room.items ≡ [] }
    requires space { MAX_RESPONSE_HEAD + MAX_REFUSAL ≤ vec_capacity room }
    ensures { result.items ≡ refusal_response refusal }
{
    let mut digits = Buffer::new();
    let number = digits.format(refusal.number()).as_bytes();
    let name = refusal.name().as_bytes();
    let body = [b"refused ".as_slice(), number, b" ", name, b"\n"];
    respond_in_pieces(room, status_of(refusal), MediaType::PlainText, &body)
}
