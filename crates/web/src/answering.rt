//! Answering arrivals.

ghost use Rattle.std.specs.Prelude.{◌≡◌, ◌≤◌, ◌++◌, [], ◌∷◌, IfOk, OnOk, OnErr, IfErr, length, vec_capacity};
ghost use Rattle.http_requests.specs.declared.response.MediaType.TheVariants.{PlainText};
ghost use Rattle.http_requests.specs.Responses.{response_text};
ghost use Rattle.office.specs.declared.arrival.Arrival.{Arrival};
ghost use Rattle.office.specs.declared.arrival.Outcome.{Outcome};
ghost use Rattle.office.specs.History.{due};
ghost use Rattle.office.specs.Faults.{HasRegisterCause};
ghost use Rattle.office.specs.Laws.{ReplyFits};
ghost use Rattle.office.specs.Registers.{AnswersBy, FailsAsARegister, FailuresPersist, MeansOneMore, MeansTheSame};
ghost use Rattle.web.specs.Answers.{IsRefusal, outcome_response};

use crate::room::{ROOM, room};
use http_requests::{MediaType, refuse, respond};
use office::{Arrival, MAX_REPLY, Outcome, Registry, StoreFault};
use std::alloc::Global;
use text::Text;

/// The response with a reply. A reply longer than any of an office's is treated as damage.
fn to_reply(room: Vec<u8>, reply: &Text) -> Result<Vec<u8>, StoreFault>
    requires empty { room.items ≡ [] }
    requires space { ROOM ≤ vec_capacity room }
    ensures ok { IfOk result (λ v. v.items ≡ response_text 200 PlainText reply.now) }
    ensures err { IfErr result (λ e. (e ≡ StoreFault.Damaged) × (length reply.now ≤ 99 → ⊥)) }
{
    let reply = reply.as_slice();
    if MAX_REPLY < reply.len() {
        return Err(StoreFault::Damaged);
    }
    Ok(respond(room, MediaType::PlainText, reply))
}

/// The response with the answer to an arrival.
fn to_outcome(room: Vec<u8>, outcome: &Outcome) -> Result<Vec<u8>, StoreFault>
    requires empty { room.items ≡ [] }
    requires space { ROOM ≤ vec_capacity room }
    ensures ok { IfOk result (λ v. v.items ≡ outcome_response outcome.now) }
    ensures err { IfErr result (λ e. (e ≡ StoreFault.Damaged) × (ReplyFits 99 outcome.now → ⊥)) }
{
    match outcome {
        Outcome::Accepted(reply) => to_reply(room, reply),
        Outcome::Repeated(reply) => to_reply(room, reply),
        Outcome::Refused(refusal) => Ok(refuse(room, *refusal)),
    }
}

/// The response to an arrival.
pub(crate) fn to_arrival<R: Registry>(
    registry: &mut R,
    alloc: Global,
    arrival: Arrival,
) -> Result<Vec<u8>, StoreFault>
    ensures failures { FailuresPersist R.is_honest R.is_open registry.old registry.new }
    ensures stays_open { R.is_honest registry.new → OnOk result (R.is_open registry.new) }
    ensures due { R.is_honest registry.new → AnswersBy R.means registry.old result
        (λ o l v. v.items ≡ outcome_response (due o l arrival)) }
    ensures form { IfOk result (λ v. (outcome : Outcome) × (v.items ≡ outcome_response outcome)) }
    ensures next { R.is_honest registry.new → OnOk result (MeansOneMore R.means arrival registry.old registry.new) }
    ensures fault { R.is_honest registry.new → OnErr result (MeansTheSame R.means registry.old registry.new) }
    ensures before { R.is_honest registry.new → R.is_open registry.new
        → OnErr result (R.is_as_before registry.old registry.new) }
    ensures refused { R.is_honest registry.new → IfOk result (λ v. IsRefusal v.items
        → R.is_open registry.new → R.is_as_before registry.old registry.new) }
    ensures cause { IfErr result (λ e. HasRegisterCause e (R.stops registry.old registry.new arrival)) }
    ensures only { R.is_honest registry.new → FailsAsARegister R.means registry.old result }
{
    let room = room(alloc, ROOM)?;
    let outcome = registry.apply(alloc, arrival)?;
    to_outcome(room, &outcome)
}
