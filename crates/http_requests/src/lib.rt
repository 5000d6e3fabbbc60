//! What the bytes of an HTTP request ask for, and the texts of the responses.
//!
//! `asks` finds what the bytes of a request ask for: a resource, that a message be accepted, or, if it isn't answered,
//! the first refusal that applies. Heads are those of RFC 9112 within fixed limits. A path is supported exactly when
//! it is the text of a route. Responses are written into memory that was reserved before, so nothing can fail once
//! there is an answer.
#![tactic(auto)]

mod asked;
mod fields;
mod growing;
mod head;
mod laws;
mod limits;
mod plan;
mod progress;
mod resource;
mod response;
mod route;
mod router;

pub use asked::{Asked, asks};
pub use growing::Spot;
pub use head::{Head, read_head};
pub use laws::{
    asks_are_lawful, later_bytes_change_nothing, limits_of_requests, one_ask,
    short_bodies_are_below_the_size, texts_tell_paths,
};
pub use limits::{MAX_BODY, MAX_HEAD, MAX_HEADER_LINES};
pub use plan::{Plan, plan_of};
pub use progress::{Progress, progress_of};
pub use resource::Resource;
pub use response::{MAX_REFUSAL, MAX_RESPONSE_HEAD, MediaType, begin_response, refuse, respond};
pub use router::Routes;
