//! The texts of HTTP: heads of requests, what a target asks for, and heads of replies. It knows no connection. Each
//! answer is exact: what the bytes are by the grammar that `httparse` is proved against, the route and the request
//! line of the target, and the bytes of the reply's head.
#![tactic(auto)]

mod cuts;
mod heads;
pub mod laws;
mod query;
mod replies;
mod routes;
mod targets;

pub use heads::{HeadAnswer, HeadParts, MOST_HEAD_BYTES, MOST_HEADER_LINES, head};
pub use replies::reply_head;
pub use routes::Route;
pub use targets::route;
