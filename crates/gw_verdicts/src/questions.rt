//! Questions: may a station do this, or is it heard, answered by the gateway's own walk over a datagram that is made for it.
mod answer;
mod call;
mod datagram;
mod deed;
mod fault;
pub mod laws;
mod place;
mod step;
mod text;
mod words;

pub use answer::{AnswerKind, QuestionAnswer, answer_question};
pub use call::{Audience, Call};
pub use datagram::make_request;
pub use deed::{Deed, DeedInWords, deed_of};
pub use fault::{PlaceFault, Unasked};
pub use place::{Addressee, Question, Spelled, Station, station_of, target_of};
pub use words::{QuestionWords, Subject, answer_words};
