//! Requests to the metrics' address.
ghost use Rattle.std.specs.Prelude.{◌≡◌};
ghost use Rattle.service_state.specs.Scrape.{scrape_of};

/// The meaning of a request to the metrics' address.
#[derive(Clone, Copy)]
pub enum Scrape {
    /// `GET /metrics`
    Metrics,
    /// The path exists, but allows only GET.
    NotAllowed,
    /// The path doesn't exist. A path with a query doesn't either.
    NotFound,
}

/// Judges a method and a path: `NotFound` if the path isn't `/metrics`, then `NotAllowed` if the method isn't `GET`.
pub fn scrape_of(method: &str, path: &str) -> Scrape
    ensures { result ≡ scrape_of method.now path.now }
{
    if path != "/metrics" {
        return Scrape::NotFound;
    }
    if method == "GET" {
        Scrape::Metrics
    } else {
        Scrape::NotAllowed
    }
}
