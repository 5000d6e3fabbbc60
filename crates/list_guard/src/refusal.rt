//! Refusals of a list guard.

ghost use Rattle.std.specs.Prelude.{◌≡◌};
ghost use Rattle.list_guard.specs.Refusals.{refusal_name, refusal_number, refusal_row};

/// Why a list guard doesn't approve a list. If several apply, the answer is the first of them in this order.
#[derive(Clone, Copy, Debug, PartialEq, Eq)]
pub enum Refusal {
    /// The bytes aren't a published list.
    NotAList,
    /// A section is for a CA that isn't permitted.
    OtherCa,
    /// The version is lower than that of the list that was approved last.
    OlderVersion,
    /// The version is that of the list that was approved last, and the bytes differ.
    OtherBytes,
    /// The list doesn't revoke everything that the list that was approved last revokes.
    Forgets,
    /// No list has been approved yet, and the question doesn't accept a first one.
    NotBegun,
    /// The version has grown by more than the list has, or a first list's version is higher than its size.
    VersionJumps,
}

/// The number and the name of a refusal.
#[derive(Drop)]
struct Row(u8, &'static str);

impl Refusal {
    fn row(self) -> Row
        ensures { (result.0, result.1.now) ≡ refusal_row self }
    {
        match self {
            Refusal::NotAList => Row(40, "NotAList"),
            Refusal::OtherCa => Row(41, "OtherCa"),
            Refusal::OlderVersion => Row(42, "OlderVersion"),
            Refusal::OtherBytes => Row(43, "OtherBytes"),
            Refusal::Forgets => Row(44, "Forgets"),
            Refusal::NotBegun => Row(45, "NotBegun"),
            Refusal::VersionJumps => Row(46, "VersionJumps"),
        }
    }

    /// The number, 40 to 46.
    pub fn number(self) -> u8
        ensures { result ≡ refusal_number self }
    {
        self.row().0
    }

    /// The name, as an answer has it.
    pub fn name(self) -> &'static str
        ensures { result.now ≡ refusal_name self }
    {
        self.row().1
    }
}
