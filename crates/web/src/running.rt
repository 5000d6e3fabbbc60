//! Successive exchanges.

ghost use Rattle.std.specs.Prelude.{◌≡◌, ℕ, List, IfOk, OnErr};
ghost use Rattle.office.specs.Registers.{FailuresPersist, MeansTheSame};
ghost use Rattle.web.specs.Answers.{IsAnswered, Keeps};
ghost use Rattle.web.specs.Forms.{HasForm, HaveForms};
ghost use Rattle.web.specs.Runs.{AreGivenNoChange, AskNoChange, IsGivenNoChange, Serves};

use crate::exchange::{Exchange, Given};
use crate::request::answer_by;
use http_requests::Routes;
use office::Registry;
use std::alloc::Global;
use text::{NoMemory, Text};

/// The result of one exchange.
fn given_by<R: Registry>(
    routes: &Routes,
    registry: &mut R,
    alloc: Global,
    exchange: &Exchange,
) -> Given
    ensures failures { FailuresPersist R.is_honest R.is_open registry.old registry.new }
    ensures answered { R.is_honest registry.new → (response : List ℕ) → result ≡ Given.Answer response
        → IsAnswered (R.means registry.old) (R.means registry.new) (Keeps R.means R.is_open registry.new)
        exchange.now.request exchange.now.moment exchange.now.nonce response
        × (R.is_open registry.old → R.is_open registry.new) }
    ensures fault { R.is_honest registry.new → result ≡ Given.Fault → MeansTheSame R.means registry.old registry.new }
    ensures before { R.is_honest registry.new → R.is_open registry.new → IsGivenNoChange exchange.now result
        → R.is_as_before registry.old registry.new }
    ensures form { (response : List ℕ) → result ≡ Given.Answer response → HasForm exchange.now.request response }
{
    let request = exchange.request.as_slice();
    let answered = answer_by(
        routes,
        registry,
        alloc,
        request,
        exchange.moment,
        &exchange.nonce,
    );
    match answered {
        Ok(response) => Given::Answer(Text::from_vec(response)),
        Err(_) => Given::Fault,
    }
}

/// The results of successive exchanges. After a fault it continues with the next.
///
/// The result and the routes are made before the first exchange, so after `NoMemory` nothing was applied.
pub fn run<R: Registry>(
    registry: &mut R,
    alloc: Global,
    exchanges: &[Exchange],
) -> Result<Vec<Given>, NoMemory>
    ensures failures { FailuresPersist R.is_honest R.is_open registry.old registry.new }

    // Each exchange gets a fault, or the response specified after the arrivals before it that got no fault, and the
    // list only if it may be returned. The register then means the history followed by all arrivals that got no fault.
    // If it has answered since the last fault, it is open, and so preserves that history.
    ensures serves { R.is_honest registry.new → IfOk result (λ given. Serves (R.means registry.old)
        (R.means registry.new) (Keeps R.means R.is_open registry.new) exchanges.now given.items) }
    ensures err { OnErr result (registry.new ≡ registry.old) }

    // The stored rows are unchanged, whatever they mean, if no exchange is a message, or if each message was refused or
    // got a fault.
    ensures reads { R.is_honest registry.new → R.is_open registry.new → AskNoChange exchanges.now
        → R.is_as_before registry.old registry.new }
    ensures before { R.is_honest registry.new → IfOk result (λ given. AreGivenNoChange exchanges.now given.items
        → R.is_open registry.new → R.is_as_before registry.old registry.new) }

    // Whatever the register means, there is a result for each exchange, and a response has the form that its request
    // asks for.
    ensures forms { IfOk result (λ given. HaveForms exchanges.now given.items) }
{
    let mut given = Vec::with_capacity(alloc, exchanges.len())?;
    let routes = Routes::new(alloc)?;
    for exchange in exchanges {
        given
            .push(given_by(&routes, registry, alloc, exchange))
            .unwrap();
    }
    Ok(given)
}
