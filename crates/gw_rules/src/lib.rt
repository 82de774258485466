//! Rules under which the gateway forwards, distributes and serves: what is asked, which rules there
//! are, the first rule that matches, and what any judge of a rule list answers.
//!
//! The rules are this project's own. The values that they name are those of ISO 16484-5: network
//! numbers and network messages of clause 6, services and PDU types of clause 20, objects and
//! properties of clauses 12 and 15, priorities of clause 19, BVLL functions of Annex J.
#![tactic(auto)]

mod ask;
mod asker;
mod authorizer;
mod both_ways;
mod decision;
mod fault;
mod field;
mod fields;
mod format;
mod judge;
pub mod laws;
mod name;
mod operation;
mod range;
mod ranges;
mod recorder;
mod refusal;
mod rule;
mod rule_list;
mod service;
mod verdict;

pub use ask::Ask;
pub use asker::Asker;
pub use authorizer::Authorizer;
pub use decision::Decision;
pub use fault::RuleFault;
pub use field::FieldName;
pub use fields::Fields;
pub use format::Format;
pub use judge::Judge;
pub use name::{MAX_NAME, NO_RULE, RuleName};
pub use operation::Operation;
pub use range::Range;
pub use ranges::{Ranges, admit};
pub use recorder::Recorder;
pub use refusal::{Refusal, Refusals};
pub use rule::{MAX_LONG_RANGES, MAX_RANGES, Rule, quiet_mark};
pub use rule_list::{MAX_RANGES_IN_ALL, MAX_RULES, RuleList};
pub use service::Service;
pub use verdict::{Verdict, Verdicts};
