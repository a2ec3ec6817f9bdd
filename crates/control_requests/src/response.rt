//! The responses to clients, in HTTP/1.1.
ghost use Rattle.std.specs.Prelude.{◌≡◌, IfOk, string_bytes};
ghost use Rattle.serde_json.specs.Written.{compact_text};
ghost use Rattle.control_requests.specs.Response.{code_of, reason_of, allow_line, error_data, response_text};

use crate::json_text::{Shown, object_text};
use crate::operation::Methods;
use std::alloc::{AllocError, Global};

/// The status code of a response.
#[derive(Clone, Copy)]
pub enum StatusCode {
    Ok,
    Created,
    Accepted,
    BadRequest,
    NotFound,
    /// The path has these methods.
    NotAllowed(Methods),
    Conflict,
    TooLarge,
    Unprocessable,
    HeadTooLarge,
    Unavailable,
}

impl StatusCode {
    /// Returns the number of the status code, 200 ..= 503 (RFC 9110, section 15).
    pub fn code(self) -> u16
        ensures { result ≡ code_of self }
    {
        match self {
            StatusCode::Ok => 200,
            StatusCode::Created => 201,
            StatusCode::Accepted => 202,
            StatusCode::BadRequest => 400,
            StatusCode::NotFound => 404,
            StatusCode::NotAllowed(_) => 405,
            StatusCode::Conflict => 409,
            StatusCode::TooLarge => 413,
            StatusCode::Unprocessable => 422,
            StatusCode::HeadTooLarge => 431,
            StatusCode::Unavailable => 503,
        }
    }

    /// Returns the reason phrase, as RFC 9110 has it; for 431 as RFC 6585 has it.
    pub fn reason(self) -> &'static str
        ensures { result.now ≡ reason_of self }
    {
        match self {
            StatusCode::Ok => "OK",
            StatusCode::Created => "Created",
            StatusCode::Accepted => "Accepted",
            StatusCode::BadRequest => "Bad Request",
            StatusCode::NotFound => "Not Found",
            StatusCode::NotAllowed(_) => "Method Not Allowed",
            StatusCode::Conflict => "Conflict",
            StatusCode::TooLarge => "Content Too Large",
            StatusCode::Unprocessable => "Unprocessable Content",
            StatusCode::HeadTooLarge => "Request Header Fields Too Large",
            StatusCode::Unavailable => "Service Unavailable",
        }
    }
}

// Returns the line `Allow` of a response that has one.
fn allow_line(status: StatusCode) -> &'static str
    ensures { result.now ≡ allow_line status }
{
    let StatusCode::NotAllowed(methods) = status else {
        return "";
    };
    match (methods.get, methods.post, methods.delete) {
        (true, true, true) => "Allow: GET, POST, DELETE\r\n",
        (true, true, false) => "Allow: GET, POST\r\n",
        (true, false, true) => "Allow: GET, DELETE\r\n",
        (true, false, false) => "Allow: GET\r\n",
        (false, true, true) => "Allow: POST, DELETE\r\n",
        (false, true, false) => "Allow: POST\r\n",
        (false, false, true) => "Allow: DELETE\r\n",
        (false, false, false) => "Allow: \r\n",
    }
}

/// A response: its status code, and its body in JSON.
#[derive(Drop)]
pub struct Response {
    pub status: StatusCode,
    pub body: String,
}

impl Response {
    /// Returns a response that names the fault: `{"error": why}`.
    ///
    /// `AllocError`: a request for memory was refused.
    pub fn error(alloc: Global, status: StatusCode, why: &str) -> Result<Response, AllocError>
        ensures status { IfOk result (λ response. response.status ≡ status) }
        ensures body { IfOk result (λ response. string_bytes response.body ≡ compact_text (error_data why.now)) }
    {
        let body = object_text(alloc, &[("error", Shown::Text(why))])?;
        Ok(Response { status, body })
    }

    /// Returns the octets that go to the client: the status line, the fields `Content-Type`, `Content-Length` (the octets
    /// of the body), `Connection: close`, and of 405 `Allow`; an empty line; the body.
    ///
    /// `AllocError`: a request for memory was refused.
    pub fn octets(&self, alloc: Global) -> Result<Vec<u8>, AllocError>
        ensures { IfOk result (λ octets. octets.items ≡ response_text self.now.status (string_bytes self.now.body)) }
    {
        let text = format!(in alloc;
            "HTTP/1.1 {} {}\r\nContent-Type: application/json\r\nContent-Length: {}\r\nConnection: close\r\n{}\r\n{}",
            self.status.code(),
            self.status.reason(),
            self.body.len(),
            allow_line(self.status),
            self.body
        )?;
        Ok(text.into_bytes())
    }
}
