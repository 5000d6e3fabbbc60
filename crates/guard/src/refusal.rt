//! A guard's refusals.

ghost use Rattle.std.specs.Prelude.{◌≡◌};
ghost use Rattle.guard.specs.Refusals.{refusal_name, refusal_number, refusal_row};

/// Why an unsigned certificate (body) isn't signed. If several refusals apply, the answer is the first in this list.
#[derive(Clone, Copy, Debug, PartialEq, Eq)]
pub enum Refusal {
    /// The bytes aren't a body of the profile, or are more than the 16384 that a body may have.
    NotABody,
    /// The body names another CA.
    OtherCa,
    /// The serial is below the guard's first one or above its last one.
    OtherSerial,
    /// A different body was approved under the serial.
    SerialTaken,
    /// The policy has no department with the name before the key id's `/`.
    NoDepartment,
    /// The department is for the other kind of certificate.
    OtherKind,
    /// The department's profile doesn't permit the certificate.
    NotPermitted,
    /// The validity has ended.
    AlreadyEnded,
    /// The validity begins too far in the future.
    TooFarAhead,
}

/// A refusal's number and its name.
#[derive(Drop)]
struct Row(u8, &'static str);

impl Refusal {
    fn row(self) -> Row
        ensures { (result.0, result.1.now) ≡ refusal_row self }
    {
        match self {
            Refusal::NotABody => Row(31, "NotABody"),
            Refusal::OtherCa => Row(32, "OtherCa"),
            Refusal::OtherSerial => Row(33, "OtherSerial"),
            Refusal::SerialTaken => Row(34, "SerialTaken"),
            Refusal::NoDepartment => Row(35, "NoDepartment"),
            Refusal::OtherKind => Row(36, "OtherKind"),
            Refusal::NotPermitted => Row(37, "NotPermitted"),
            Refusal::AlreadyEnded => Row(38, "AlreadyEnded"),
            Refusal::TooFarAhead => Row(39, "TooFarAhead"),
        }
    }

    /// The number, 31 to 39: the place in the order in which refusals are tested.
    pub fn number(self) -> u8
        ensures { result ≡ refusal_number self }
    {
        self.row().0
    }

    /// The name that is printed in an answer.
    pub fn name(self) -> &'static str
        ensures { result.now ≡ refusal_name self }
    {
        self.row().1
    }
}
