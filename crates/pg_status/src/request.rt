//! What the first bytes of a connection ask for.

ghost use Rattle.std.specs.Prelude.{◌≡◌, ◌<◌, ◌≤◌, ℕ, List, IfSome, length, option_map};
ghost use Rattle.httparse.specs.Grammar.{HasNoRequest, ReadsRequest, RequestHead};
ghost use Rattle.pg_status.specs.Requests.{answered, asked, health_by, is_within, number_in, path_in, query_in, question_mark_in, shown_by};

use httparse::spans::{EMPTY_HEADER_SPAN, parse_request};
use httparse::{Error, Status};

/// The bytes of a head at most.
pub const HEAD_BYTES: usize = 8192;

/// The header fields of a head at most.
const FIELDS: usize = 64;

/// Within how many seconds a source has to have sent data where nothing is said, and at most: a day.
const WITHIN: u32 = 10;

const LONGEST: u32 = 86_400;

/// As what a number counts that is greater.
const MOST: u32 = 99_999;

/// What can be asked for.
#[derive(Clone, Copy, PartialEq, Eq)]
pub enum Shown {
    /// The page, at `/`.
    Page,
    /// Its state and history as JSON, at `/state`.
    State,
    /// The metrics, at `/metrics`.
    Metrics,
    /// Whether the gateway does its work, at `/health?within=SECONDS`.
    Health {
        /// Within how many seconds a source has to have sent data, 1 to 86,400; 10 where nothing is said.
        within: u32,
    },
}

/// Why a request is refused.
#[derive(Clone, Copy)]
pub enum HttpError {
    /// 400: the bytes begin no request.
    NoRequest,
    /// 400: what stands behind the question mark of `/health` is not `within=SECONDS`.
    Within,
    /// 404: nothing is at this path.
    NotFound,
    /// 405: the method is neither GET nor HEAD.
    Method,
    /// 431: the first 8,192 bytes hold no whole head, or it has more than 64 fields.
    TooLarge,
}

/// What bytes ask for.
#[derive(Clone, Copy)]
pub enum Request {
    /// Nothing yet: more bytes have to come.
    Partial,
    /// This is to be shown, the head of the answer alone where `is_head`.
    Show {
        /// What.
        shown: Shown,
        /// Whether the method is HEAD.
        is_head: bool,
    },
    /// It is refused, by the head of the answer alone where `is_head`.
    Deny {
        /// Why.
        denial: HttpError,
        /// Whether the method is HEAD.
        is_head: bool,
    },
}

/// What the first bytes of a connection ask for, up to 8,192 of them. What stands behind a question mark in the target is passed
/// over, but for `/health`.
#[tactic(auto, using(crate::proofs::WholeHeads::answered_whole))]
pub fn read_request(head: &[u8]) -> Request
    // A whole head is answered by its method and target.
    ensures whole { (h : RequestHead) (rest : List ℕ) → ReadsRequest head.now h rest → length h.fields ≤ 64
        → result ≡ answered h.method h.target }
    // More bytes are waited for only while there is no whole head, and room for more.
    ensures room { result ≡ Request.Partial → length head.now < 8192 }
    ensures partial { result ≡ Request.Partial → HasNoRequest head.now }
{
    let mut fields = [EMPTY_HEADER_SPAN; FIELDS];
    match parse_request(head, &mut fields) {
        Ok(Status::Complete(spans)) => answer_to(spans.method.of(head), spans.path.of(head)),
        Ok(Status::Partial) => {
            if head.len() < HEAD_BYTES {
                Request::Partial
            } else {
                deny(HttpError::TooLarge, false)
            }
        }
        Err(Error::TooManyHeaders) => deny(HttpError::TooLarge, false),
        Err(_) => deny(HttpError::NoRequest, false),
    }
}

fn deny(denial: HttpError, is_head: bool) -> Request
    ensures { result ≡ Request.Deny denial is_head }
{
    Request::Deny { denial, is_head }
}

/// What is answered to a method and a target.
fn answer_to(method: &[u8], target: &[u8]) -> Request
    ensures { result ≡ answered method.now target.now }
{
    if method == b"GET".as_slice() {
        ask(target, false)
    } else if method == b"HEAD".as_slice() {
        ask(target, true)
    } else {
        deny(HttpError::Method, false)
    }
}

/// What is shown of a target, or why nothing is.
fn ask(target: &[u8], is_head: bool) -> Request
    ensures { result ≡ asked is_head target.now }
{
    match shown_at(path_of(target), query_of(target)) {
        Ok(shown) => Request::Show { shown, is_head },
        Err(denial) => deny(denial, is_head),
    }
}

/// Where the first question mark is.
fn question_mark(target: &[u8]) -> Option<usize>
    ensures value { result ≡ question_mark_in target.now }
    ensures within { IfSome result (λ place. place < length target.now) }
{
    target.iter().position(|byte| *byte == b'?')
}

/// The path of a target, without what stands behind a question mark.
fn path_of(target: &[u8]) -> &[u8]
    ensures { result.now ≡ path_in target.now }
{
    match question_mark(target) {
        Some(end) => &target[..end],
        None => target,
    }
}

/// What stands behind the first question mark of a target, if there is one.
fn query_of(target: &[u8]) -> Option<&[u8]>
    ensures { option_map (λ q. q.now) result ≡ query_in target.now }
{
    let place = question_mark(target)?;
    Some(&target[place + 1..])
}

/// What is shown at a path, with what stands behind the question mark.
fn shown_at(path: &[u8], query: Option<&[u8]>) -> Result<Shown, HttpError>
    ensures { result ≡ shown_by path.now (option_map (λ q. q.now) query.entry) }
{
    if path == b"/".as_slice() {
        Ok(Shown::Page)
    } else if path == b"/state".as_slice() {
        Ok(Shown::State)
    } else if path == b"/metrics".as_slice() {
        Ok(Shown::Metrics)
    } else if path == b"/health".as_slice() {
        health_at(query)
    } else {
        Err(HttpError::NotFound)
    }
}

/// What is shown at `/health`, with what stands behind the question mark.
fn health_at(query: Option<&[u8]>) -> Result<Shown, HttpError>
    ensures { result ≡ health_by (option_map (λ q. q.now) query.entry) }
{
    let Some(query) = query else {
        return Ok(Shown::Health { within: WITHIN });
    };
    let Some(digits) = query.strip_prefix(b"within=".as_slice()) else {
        return Err(HttpError::Within);
    };
    match number_of(digits) {
        Some(within) if is_within(within) => Ok(Shown::Health { within }),
        _ => Err(HttpError::Within),
    }
}

/// Whether so many seconds may be asked for.
fn is_within(seconds: u32) -> bool
    ensures { result ≡ is_within seconds }
{
    1 <= seconds && seconds <= LONGEST
}

/// Decimal digits as a number; one above 99,999 counts as that.
fn number_of(digits: &[u8]) -> Option<u32>
    ensures { result ≡ number_in digits.now }
{
    if digits.is_empty() {
        return None;
    }
    let mut number = 0u32;
    'digits: for digit in digits {
        if !digit.is_ascii_digit() {
            return None;
        }
        number = (number * 10 + u32::from(*digit - b'0')).min(MOST);
    }
    Some(number)
}
