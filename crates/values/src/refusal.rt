//! Refusals.

ghost use Rattle.std.specs.Prelude.{◌≡◌};
ghost use Rattle.values.specs.Refusals.{refusal_name, refusal_number, refusal_row, refusal_status};

/// Why a request is refused, with an HTTP 4xx response and no change. The first of these that applies is returned.
#[derive(Clone, Copy, PartialEq, Eq)]
pub enum Refusal {
    /// The first 8192 bytes of a request contain no complete head that can be parsed, or a length that is no number.
    BadHead,
    /// No route has the target.
    NoRoute,
    /// The route exists for another method.
    WrongMethod,
    /// A POST without the length of its body.
    LengthRequired,
    /// A body that exceeds the limit.
    TooLong,
    /// Fewer bytes after the head than the length announces.
    ShortBody,
    /// The body of the request is no message.
    BadMessage,
    /// The time is after the latest one.
    BadMoment,
    /// The caller and request key were already used for a different message.
    KeyReused,
    /// The caller may not send this message.
    NotAllowed,
    /// The department doesn't exist.
    NoDepartment,
    /// The department exists, and has the other kind.
    KindFixed,
    /// The key ID's department isn't the one named.
    BadKeyId,
    /// The department's profile doesn't permit the certificate.
    NotPermitted,
    /// The validity ends by the time of the request.
    AlreadyEnded,
    /// The key ID is revoked.
    KeyIdRevoked,
    /// The serial wasn't issued.
    UnknownSerial,
    /// The digest isn't that of the body (the unsigned certificate) with the serial.
    WrongDigest,
    /// The serial or its key ID is revoked.
    Revoked,
    /// A different signature is stored.
    AlreadySigned,
    /// No signature is stored.
    NotSigned,
    /// The next serial is after the last one.
    SerialsExhausted,
    /// One of the office's CAs has the key.
    CaInUse,
    /// The office already has as many CAs as it may have.
    TooManyCas,
}

/// The properties of a refusal: its number, its name and its status (RFC 9110 section 15).
#[derive(Drop)]
struct Row(u8, &'static str, u16);

impl Refusal {
    fn row(self) -> Row
        ensures { (result.0, result.1.now, result.2) ≡ refusal_row self }
    {
        match self {
            Refusal::BadHead => Row(1, "BadHead", 400),
            Refusal::NoRoute => Row(2, "NoRoute", 404),
            Refusal::WrongMethod => Row(3, "WrongMethod", 405),
            Refusal::LengthRequired => Row(4, "LengthRequired", 411),
            Refusal::TooLong => Row(5, "TooLong", 413),
            Refusal::ShortBody => Row(6, "ShortBody", 400),
            Refusal::BadMessage => Row(7, "BadMessage", 400),
            Refusal::BadMoment => Row(8, "BadMoment", 400),
            Refusal::KeyReused => Row(9, "KeyReused", 409),
            Refusal::NotAllowed => Row(10, "NotAllowed", 403),
            Refusal::NoDepartment => Row(11, "NoDepartment", 404),
            Refusal::KindFixed => Row(12, "KindFixed", 409),
            Refusal::BadKeyId => Row(13, "BadKeyId", 409),
            Refusal::NotPermitted => Row(14, "NotPermitted", 409),
            Refusal::AlreadyEnded => Row(15, "AlreadyEnded", 409),
            Refusal::KeyIdRevoked => Row(16, "KeyIdRevoked", 409),
            Refusal::UnknownSerial => Row(17, "UnknownSerial", 404),
            Refusal::WrongDigest => Row(18, "WrongDigest", 409),
            Refusal::Revoked => Row(19, "Revoked", 409),
            Refusal::AlreadySigned => Row(20, "AlreadySigned", 409),
            Refusal::NotSigned => Row(21, "NotSigned", 409),
            Refusal::SerialsExhausted => Row(22, "SerialsExhausted", 409),
            Refusal::CaInUse => Row(23, "CaInUse", 409),
            Refusal::TooManyCas => Row(24, "TooManyCas", 409),
        }
    }

    /// The number, 1 to 24: the place in the order in which refusals are checked.
    pub fn number(self) -> u8
        ensures { result ≡ refusal_number self }
    {
        self.row().0
    }

    /// The name, as written in a response.
    pub fn name(self) -> &'static str
        ensures { result.now ≡ refusal_name self }
    {
        self.row().1
    }

    /// The HTTP status code.
    pub fn status(self) -> u16
        ensures { result ≡ refusal_status self }
    {
        self.row().2
    }
}
