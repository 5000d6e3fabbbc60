//! The answer to an arrival.
//!
//! Large values are dropped explicitly: if one lives to a function's end, the proof takes each of its fields apart.

ghost use Rattle.std.specs.Prelude.{◌≡◌, ◌≤◌, IfOk, IfErr, IsTrue, Some, length};
ghost use Rattle.std.specs.List.{list_any};
ghost use Rattle.std.specs.Option.{option_copied};
ghost use Rattle.message.specs.Values.{is_message};
ghost use Rattle.office.specs.Messages.{message_with_text};
ghost use Rattle.office.specs.declared.view.Stop.TheVariants.{NoMemory};
ghost use Rattle.office.specs.History.{has_key, is_repeat, reply_kept};
ghost use Rattle.office.specs.Decided.{Decided, HasRoom, IsLawfulChange};
ghost use Rattle.memory_store.specs.Contents.{JudgesArrival, state_of};

use crate::store::PlainStore;
use message::{Message, MessageFault, read_message};
use office::{Arrival, Decision, Kept, MAX_REPLY, Stop, decide};
use std::alloc::Global;
use text::Text;
use values::{LATEST_MOMENT, Refusal};

/// The last version of the published list.
const LAST_VERSION: u64 = 9223372036854775806;

fn is_for(arrival: &Arrival, kept: &Kept) -> bool
    ensures { result ≡ has_key arrival.now kept.now }
{
    kept.caller.is(arrival.caller.as_slice()) && kept.key.is(arrival.key.as_slice())
}

fn is_again(arrival: &Arrival, kept: &Kept) -> bool
    ensures { result ≡ is_repeat arrival.now kept.now }
{
    is_for(arrival, kept) && kept.bytes.is(arrival.bytes.as_slice())
}

/// The reply that the same message got.
pub(crate) fn kept_reply<'a>(kept: &'a [Kept], arrival: &Arrival) -> Option<&'a Text>
    ensures { option_copied result ≡ reply_kept kept.now arrival.now }
{
    match kept.iter().find(|row| is_again(arrival, row)) {
        Some(row) => Some(&row.reply),
        None => None,
    }
}

fn is_known(kept: &[Kept], arrival: &Arrival) -> bool
    ensures { result ≡ list_any (has_key arrival.now) kept.now }
{
    kept.iter().any(|row| is_for(arrival, row))
}

impl PlainStore {
    /// The decision about an arrival that isn't a repeat.
    pub(crate) fn judge(&self, alloc: Global, arrival: &Arrival) -> Result<Decision, Stop>
        ensures judges { JudgesArrival result self.now arrival.now }
        ensures room { IfOk result (λ d. HasRoom d.change (state_of self.now)) }
        ensures change { IfOk result (λ d. IsLawfulChange d.change) }
        ensures version { IfOk result (λ d. d.version ≤ LAST_VERSION) }
        ensures short { IfOk result (λ d. length d.reply ≤ 99) }
    {
        match read_message(alloc, arrival.bytes.as_slice()) {
            Ok(message) => {
                let verdict = self.admit(alloc, arrival, &message);
                drop(message);
                verdict
            }
            Err(MessageFault::BadLine(_)) => Err(Stop::Refused(Refusal::BadMessage)),
            Err(MessageFault::NoMemory) => Err(Stop::NoMemory),
        }
    }

    /// Refuses a message that comes too late or under a used request ID, and decides about any other.
    fn admit(&self, alloc: Global, arrival: &Arrival, message: &Message) -> Result<Decision, Stop>
        requires message { IsTrue (is_message message.now) }
        requires read { message_with_text arrival.now.bytes ≡ Some message.now }
        ensures judges { JudgesArrival result self.now arrival.now }
        ensures room { IfOk result (λ d. HasRoom d.change (state_of self.now)) }
        ensures change { IfOk result (λ d. IsLawfulChange d.change) }
        ensures version { IfOk result (λ d. d.version ≤ LAST_VERSION) }
        ensures short { IfOk result (λ d. length d.reply ≤ 99) }
    {
        if LATEST_MOMENT < arrival.moment {
            return Err(Stop::Refused(Refusal::BadMoment));
        }
        if is_known(self.kept.as_slice(), arrival) {
            return Err(Stop::Refused(Refusal::KeyReused));
        }
        self.decided(alloc, arrival, message)
    }

    /// The decision about a message.
    fn decided(&self, alloc: Global, arrival: &Arrival, message: &Message) -> Result<Decision, Stop>
        requires { IsTrue (is_message message.now) }
        ensures decided { Decided result (state_of self.now) arrival.now.caller message.now arrival.now.moment
            arrival.now.nonce }
        ensures room { IfOk result (λ d. HasRoom d.change (state_of self.now)) }
        ensures change { IfOk result (λ d. IsLawfulChange d.change) }
        ensures version { IfOk result (λ d. d.version ≤ LAST_VERSION) }
        ensures short { IfOk result (λ d. length d.reply ≤ 99) }
    {
        // A version past the last is reported as `NoMemory`.
        if LAST_VERSION < self.version {
            return Err(Stop::NoMemory);
        }
        let view = self.view(message);
        match decide(
            alloc,
            &view,
            arrival.caller.as_slice(),
            message,
            arrival.moment,
            &arrival.nonce,
        ) {
            Ok(decision) => in_limits(decision),
            Err(stop) => Err(stop),
        }
    }
}

/// The decision, unless its version is past the last, or its reply longer than any of an office: that is reported as
/// `NoMemory`.
fn in_limits(decision: Decision) -> Result<Decision, Stop>
    ensures same { IfOk result (λ d. d ≡ decision) }
    ensures version { IfOk result (λ d. d.version ≤ LAST_VERSION) }
    ensures short { IfOk result (λ d. length d.reply ≤ 99) }
    ensures err { IfErr result (λ stop. stop ≡ NoMemory) }
{
    let size = decision.reply.as_slice().len();
    if LAST_VERSION < decision.version || MAX_REPLY < size {
        drop(decision);
        return Err(Stop::NoMemory);
    }
    Ok(decision)
}
