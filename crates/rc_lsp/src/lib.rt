//! A server of the Language Server Protocol 3.17: it answers the messages of an editor over any streams.
//!
//! What is published of a document is the verdict on its last text, whichever messages come. The other answers are proved
//! safe only; recorded messages pin them.
#![tactic(auto)]

mod asks;
mod bodies;
mod diagnostics;
mod documents;
mod escapes;
mod fields;
mod found;
mod frames;
mod heads;
mod message;
mod offers;
mod outline;
mod places;
mod publishing;
mod replies;
mod reports;
pub mod server;
pub mod serving;
pub mod stream;
mod texts;
