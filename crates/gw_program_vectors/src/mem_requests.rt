//! Requests in memory, which report what was asked and answered.

ghost use Rattle.std.specs.Prelude.{◌≡◌, ◌∷◌, [], None, IfErr, IfOk};
ghost use Rattle.gw_system.specs.Requests.{GoesOn, answered, asked_by, asked_for, known};
ghost use Rattle.gw_program_vectors.specs.Exchanges.{asking_of, exchange_of};

use gw_system::{Request, Requests};
use std::alloc::{AllocError, Global};
use std::cell::RefCell;

/// What was asked or answered.
#[derive(Drop)]
enum Exchange {
    /// What looking for a request gave.
    Looked(Option<Request>),
    /// The text that a request was answered.
    Answered(Vec<u8>),
}

/// Requests in memory: one at the first look, or none. They keep what they were answered, and report each exchange, as long as there is
/// memory for it.
#[derive(Drop)]
pub struct MemRequests<'a> {
    alloc: Global,
    asked: Option<Request>,
    exchanges: Option<Vec<Exchange>>,
    answers: &'a RefCell<Vec<u8>>,
}

/// A copy of a request.
fn copy_of(alloc: Global, request: &Request) -> Result<Request, AllocError>
    ensures { IfOk result (λ copy. asked_for copy ≡ asked_for request.now) }
{
    match request {
        Request::Reload(Ok(Some(text))) => {
            Ok(Request::Reload(Ok(Some(Vec::from_slice(alloc, text)?))))
        }
        Request::Reload(Ok(None)) => Ok(Request::Reload(Ok(None))),
        Request::Reload(Err(failure)) => Ok(Request::Reload(Err(*failure))),
        Request::Stop => Ok(Request::Stop),
        Request::Status => Ok(Request::Status),
        Request::Untaken => Ok(Request::Untaken),
    }
}

/// The exchange of a look that found this.
fn look_of(alloc: Global, found: &Option<Request>) -> Result<Exchange, AllocError>
    ensures { IfOk result (λ exchange. exchange_of exchange ≡ asked_by found.now) }
{
    match found {
        Some(request) => Ok(Exchange::Looked(Some(copy_of(alloc, request)?))),
        None => Ok(Exchange::Looked(None)),
    }
}

/// That of an answer of this text.
fn answer_of(alloc: Global, text: &[u8]) -> Result<Exchange, AllocError>
    ensures { IfOk result (λ exchange. exchange_of exchange ≡ answered text.now) }
{
    Ok(Exchange::Answered(Vec::from_slice(alloc, text)?))
}

impl<'a> MemRequests<'a> {
    /// Those of which this one comes at the first look, if there is one. Nothing was asked or answered yet.
    pub fn new(alloc: Global, asked: Option<Request>, answers: &'a RefCell<Vec<u8>>) -> Self
        ensures { asking_of result.exchanges ≡ known [] }
    {
        MemRequests {
            alloc,
            asked,
            exchanges: Some(Vec::new(alloc)),
            answers,
        }
    }

    /// Reports an exchange; if there is no memory for it, they report none from then on.
    fn note(&mut self, exchange: Result<Exchange, AllocError>)
        ensures recorded { IfOk exchange (λ recorded.
            GoesOn (asking_of self.old.exchanges) (asking_of self.new.exchanges) (exchange_of recorded ∷ [])) }
        ensures ends { IfErr exchange (λ _. self.new.exchanges ≡ None) }
    {
        let exchanges = self.exchanges.take();
        if let (Some(mut exchanges), Ok(exchange)) = (exchanges, exchange) {
            if exchanges.push(exchange).is_ok() {
                self.exchanges = Some(exchanges);
            }
        }
    }
}

impl Requests for MemRequests<'_> {
    ghost recorded = { λ requests. asking_of requests.exchanges };

    fn take(&mut self, alloc: Global, _most: usize) -> Option<Request> {
        let asked = self.asked.take();
        let exchange = look_of(alloc, &asked);
        self.note(exchange);
        asked
    }

    fn answer(&mut self, text: &[u8]) {
        if let Ok(mut answers) = self.answers.try_borrow_mut() {
            let _ = answers.extend_from_slice(text);
        }
        let exchange = answer_of(self.alloc, text);
        self.note(exchange);
    }
}
