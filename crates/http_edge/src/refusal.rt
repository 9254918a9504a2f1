//! Why requests are refused before the desk: each refusal's status, body and whether the stream
//! ends with it, in one table. `specs/Refusals`.
ghost use Rattle.std.specs.Prelude.{◌≡◌};
ghost use Rattle.http_edge.specs.Refusals.{row_of, allow_of, body_of};

use crate::route::Route;

/// Why a request isn't passed to the desk. Each has a code, which its reply names.
#[derive(Clone, Copy, Debug, PartialEq, Eq)]
pub(crate) enum Refusal {
    /// H01: the head isn't one of HTTP/1.1, or the input ends in it, or its `Content-Length` isn't
    /// one number.
    BadHead,
    /// H02: more than `HEAD_LIMIT` bytes or `LINE_LIMIT` lines of a head.
    HeadTooLarge,
    /// H03: a PUT without `Content-Length`.
    LengthRequired,
    /// H04: a body of more than `BODY_LIMIT` bytes.
    BodyTooLarge,
    /// H05: the input ends in the body.
    BodyCut,
    /// H06: the path has no route.
    NoSuchRoute,
    /// H07: the path's route, which takes another method.
    MethodNotAllowed(Route),
    /// H08: the head has a `Transfer-Encoding`.
    TransferCoding,
    /// D03: a parameter is missing, there twice, or not of its form.
    BadParameter,
}

/// What is replied to a request that is refused, and whether nothing that follows it in the stream
/// is served.
#[derive(Clone, Copy)]
struct Row {
    status: u16,
    body: &'static str,
    ends_stream: bool,
}

impl Refusal {
    fn row(self) -> Row
        ensures status { result.status ≡ (row_of self).status }
        ensures body { result.body.now ≡ body_of self }
        ensures ends_stream { result.ends_stream ≡ (row_of self).ends_stream }
    {
        let (status, body, ends_stream) = match self {
            Refusal::BadHead => (400, r#"{"fault":"H01","text":"bad head"}"#, true),
            Refusal::HeadTooLarge => (431, r#"{"fault":"H02","text":"head too large"}"#, true),
            Refusal::LengthRequired => (411, r#"{"fault":"H03","text":"length required"}"#, true),
            Refusal::BodyTooLarge => (413, r#"{"fault":"H04","text":"body too large"}"#, true),
            Refusal::BodyCut => (400, r#"{"fault":"H05","text":"body cut"}"#, true),
            Refusal::NoSuchRoute => (404, r#"{"fault":"H06","text":"no such route"}"#, false),
            Refusal::MethodNotAllowed(_) => (
                405,
                r#"{"fault":"H07","text":"method not allowed"}"#,
                false,
            ),
            Refusal::TransferCoding => (
                501,
                r#"{"fault":"H08","text":"transfer coding not supported"}"#,
                true,
            ),
            Refusal::BadParameter => (400, r#"{"fault":"D03","text":"bad parameter"}"#, false),
        };
        Row {
            status,
            body,
            ends_stream,
        }
    }

    /// The status of the reply (RFC 9110, section 15).
    pub(crate) fn status(self) -> u16
        ensures { result ≡ (row_of self).status }
    {
        self.row().status
    }

    /// The route whose method the reply names as allowed (RFC 9110, section 10.2.1).
    pub(crate) fn allow(self) -> Option<Route>
        ensures { result ≡ allow_of self }
    {
        match self {
            Refusal::MethodNotAllowed(route) => Some(route),
            _ => None,
        }
    }

    /// The body of the reply: the code and its text as JSON.
    pub(crate) fn body(self) -> &'static str
        ensures { result.now ≡ body_of self }
    {
        self.row().body
    }

    /// Whether nothing that follows it in the stream is served.
    pub(crate) fn ends_stream(self) -> bool
        ensures { result ≡ (row_of self).ends_stream }
    {
        self.row().ends_stream
    }
}
