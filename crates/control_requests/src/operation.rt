//! The operations of the control socket, by the method and the path of a request.
ghost use Rattle.std.specs.Prelude.{◌≡◌, Some, None};
ghost use Rattle.control_requests.specs.Operation.{call_number, call_row, row_of, operation_by, methods_of, operation_at};

use crate::digits::number_up_to;

/// The operation of a client's request.
#[derive(Clone, Copy)]
pub enum Operation {
    /// `GET /`: the list of operations.
    Table,
    /// `GET /peers`
    Peers,
    /// `GET /calls`
    Calls,
    /// `GET /calls/<number>`: the call of a local number, 1 to 32,767.
    Call(u16),
    /// `GET /accounts`
    Accounts,
    /// `POST /calls`: places a call, by the body.
    Place,
    /// `DELETE /calls/<number>`: hangs up the leg of a local number, 1 to 32,767.
    HangUp(u16),
    /// `POST /stop`: hangs up each leg, and ends the workers.
    Stop,
    /// `POST /stop/graceful`: rejects new calls, and ends the workers once the last call has ended.
    StopGracefully,
    /// `POST /drain`: rejects new calls.
    Drain,
    /// `DELETE /drain`: accepts new calls again.
    EndDrain,
}

/// The methods that a path has.
#[derive(Clone, Copy, Debug, PartialEq, Eq)]
pub struct Methods {
    pub get: bool,
    pub post: bool,
    pub delete: bool,
}

/// The reason why a request names no operation.
#[derive(Clone, Copy, Debug, PartialEq, Eq)]
pub enum OperationError {
    /// The path doesn't exist. A path with a query doesn't either.
    NotFound,
    /// The path has these methods, and not this one.
    NotAllowed(Methods),
}

// The operation of each method at a path.
#[derive(Clone, Copy)]
pub(crate) struct Row {
    pub get: Option<Operation>,
    pub post: Option<Operation>,
    pub delete: Option<Operation>,
}

fn call_number(digits: &[u8]) -> Option<u16>
    ensures { result ≡ call_number digits.now }
{
    if digits.first() == Some(&b'0') {
        return None;
    }
    match number_up_to(32_767, digits) {
        Some(number) if 1 <= number && number <= 32_767 => Some(number as u16),
        _ => None,
    }
}

fn call_row(path: &[u8]) -> Option<Row>
    ensures { result ≡ call_row path.now }
{
    let number = call_number(path.strip_prefix(b"/calls/")?)?;
    Some(Row {
        get: Some(Operation::Call(number)),
        post: None,
        delete: Some(Operation::HangUp(number)),
    })
}

fn listed(get: Option<Operation>, post: Option<Operation>) -> Option<Row>
    ensures { result ≡ Some (record { get = get; post = post; delete = None }) }
{
    Some(Row {
        get,
        post,
        delete: None,
    })
}

fn row_of(path: &str) -> Option<Row>
    ensures { result ≡ row_of path.now }
{
    if path == "/" {
        listed(Some(Operation::Table), None)
    } else if path == "/peers" {
        listed(Some(Operation::Peers), None)
    } else if path == "/calls" {
        listed(Some(Operation::Calls), Some(Operation::Place))
    } else if path == "/accounts" {
        listed(Some(Operation::Accounts), None)
    } else if path == "/stop" {
        listed(None, Some(Operation::Stop))
    } else if path == "/stop/graceful" {
        listed(None, Some(Operation::StopGracefully))
    } else if path == "/drain" {
        Some(Row {
            get: None,
            post: Some(Operation::Drain),
            delete: Some(Operation::EndDrain),
        })
    } else {
        call_row(path.as_bytes())
    }
}

fn operation_by(row: Row, method: &str) -> Option<Operation>
    ensures { result ≡ operation_by row method.now }
{
    match method {
        "GET" => row.get,
        "POST" => row.post,
        "DELETE" => row.delete,
        _ => None,
    }
}

fn methods_of(row: Row) -> Methods
    ensures { result ≡ methods_of row }
{
    Methods {
        get: row.get.is_some(),
        post: row.post.is_some(),
        delete: row.delete.is_some(),
    }
}

/// Returns the operation that a method and a path name, by a table with one row for each path.
///
/// Returns `NotFound` if the path doesn't exist or has a query, and `NotAllowed` with the path's methods if this isn't one
/// of them.
pub fn operation_of(method: &str, path: &str) -> Result<Operation, OperationError>
    ensures table { result ≡ operation_at method.now path.now }
{
    let Some(row) = row_of(path) else {
        return Err(OperationError::NotFound);
    };
    match operation_by(row, method) {
        Some(operation) => Ok(operation),
        None => Err(OperationError::NotAllowed(methods_of(row))),
    }
}
