//! The log's news of a peer that begins to answer, falls silent, and answers again.
ghost use Rattle.std.specs.Prelude.{◌≡◌};
ghost use Rattle.service_state.specs.PeerSilence.{news_by, news_of};

/// The state of a peer, as the log last reported it.
#[derive(Clone, Copy)]
pub enum Hearing {
    /// It never gave a sign of life.
    Never,
    /// It gives signs of life.
    Heard,
    /// It is silent for longer than the limit.
    Silent,
}

/// The log's news of a peer.
#[derive(Clone, Copy)]
pub enum News {
    /// Its first sign of life came.
    FirstWord,
    /// It is silent for this number of milliseconds, more than the limit.
    Silent(u64),
    /// It was silent, and a sign of life came.
    HeardAgain,
}

// Returns the news of a peer whose last sign of life came `silent` milliseconds ago.
fn news_by(before: Hearing, limit: u64, silent: u64) -> (Hearing, Option<News>)
    ensures { result ≡ news_by before limit silent }
{
    let is_silent = limit < silent;
    match (before, is_silent) {
        (Hearing::Never, _) => (Hearing::Heard, Some(News::FirstWord)),
        (Hearing::Heard, false) => (Hearing::Heard, None),
        (Hearing::Heard, true) => (Hearing::Silent, Some(News::Silent(silent))),
        (Hearing::Silent, false) => (Hearing::Heard, Some(News::HeardAgain)),
        (Hearing::Silent, true) => (Hearing::Silent, None),
    }
}

/// Returns the state of a peer at `now`, and its news: its first sign of life, the end of a silence, or the first moment at
/// which it is silent for more than `limit` milliseconds. `heard` is the moment of its last sign of life, in milliseconds as
/// `now`; none if it never gave one.
pub fn news_of(before: Hearing, heard: Option<u64>, now: u64, limit: u64) -> (Hearing, Option<News>)
    ensures { result ≡ news_of before heard now limit }
{
    match heard {
        None => (before, None),
        Some(heard) => news_by(before, limit, now.saturating_sub(heard)),
    }
}
