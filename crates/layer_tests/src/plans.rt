//! Plans of a peer in the west and one in the east.
use crate::{plan, west_and_east};

/// A worker serves both peers. The west is a trunk peer.
pub const ONE_WORKER: &str = west_and_east!(
    format 1;
    west "trunk = true" "trunk_timestamps = true";
    east;
);

/// The same with a third peer, which neither sends nor receives anything.
pub const SILENT_THIRD: &str = plan!(
    format 1;
    worker "127.0.0.1" 4569;
    peer "west" 5001 worker 0 "trunk = true" "trunk_timestamps = true" "numbers = 4";
    peer "east" 5002 worker 0 "numbers = 4";
    peer "north" 5003 worker 0 "numbers = 4";
    route "3" "east";
);

/// As `ONE_WORKER`, but calls of the west are challenged.
pub const SECRET_WEST: &str = west_and_east!(
    format 1;
    west "user = \"alpha\"" "secret = \"bc\"";
    east;
);

/// As `SECRET_WEST`, with eight further peers.
pub const TEN_PEERS: &str = plan!(
    format 1;
    worker "127.0.0.1" 4569;
    peer "west" 5001 worker 0 "user = \"alpha\"" "secret = \"bc\"" "numbers = 4";
    peer "east" 5002 worker 0 "numbers = 4";
    peer "third" 5003 worker 0 "numbers = 4";
    peer "fourth" 5004 worker 0 "numbers = 4";
    peer "fifth" 5005 worker 0 "numbers = 4";
    peer "sixth" 5006 worker 0 "numbers = 4";
    peer "seventh" 5007 worker 0 "numbers = 4";
    peer "eighth" 5008 worker 0 "numbers = 4";
    peer "ninth" 5009 worker 0 "numbers = 4";
    peer "tenth" 5010 worker 0 "numbers = 4";
    route "3" "east";
);

/// As `ONE_WORKER`, but the west takes no trunk frames.
pub const NO_TRUNKS: &str = west_and_east!(
    format 1;
    west;
    east;
);

/// As `ONE_WORKER`; two workers or callers may act at once.
pub const TWO_PASSES: &str = west_and_east!(
    format 1 "passes = 2";
    west "trunk = true" "trunk_timestamps = true";
    east;
);

/// As `ONE_WORKER`, but a second worker serves the peer in the east.
pub const TWO_WORKERS: &str = plan!(
    format 1;
    worker "127.0.0.1" 4569;
    worker "127.0.0.1" 4570;
    peer "west" 5001 worker 0 "trunk = true" "trunk_timestamps = true" "numbers = 4";
    peer "east" 5002 worker 1 "numbers = 4";
    route "3" "east";
);
