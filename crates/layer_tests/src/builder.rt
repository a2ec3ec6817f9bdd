//! The builder of plans.

/// The text of a plan, put together at compile time: its version and further keys; each worker, by its address and port;
/// each peer, at a port of 127.0.0.1, with a worker, the codec `ulaw` and further keys; each route, by its prefix and the
/// peer to which it leads, and further keys. A further key is a line of the text, as `"numbers = 4"`.
#[macro_export]
macro_rules! plan {
    (
        format $format:literal $($top:literal)*;
        $(worker $address:literal $port:literal;)+
        $(peer $name:literal $peer_port:literal worker $worker:literal $($of_peer:literal)*;)+
        $(route $prefix:literal $to:literal $($of_route:literal)*;)*
    ) => {
        concat!(
            "format = ", $format, "\n",
            $($top, "\n",)*
            $(
                "[[worker]]\n",
                "address = \"", $address, "\"\n",
                "port = ", $port, "\n",
            )+
            $(
                "[[peer]]\n",
                "name = \"", $name, "\"\n",
                "address = \"127.0.0.1\"\n",
                "port = ", $peer_port, "\n",
                "worker = ", $worker, "\n",
                "formats = [\"ulaw\"]\n",
                $($of_peer, "\n",)*
            )+
            $(
                "[[route]]\n",
                "prefix = \"", $prefix, "\"\n",
                "peer = \"", $to, "\"\n",
                $($of_route, "\n",)*
            )*
        )
    };
}

/// The text of a plan of two peers, with the numbers 1 ..= 4 and 5 ..= 8, and one worker. Numbers that begin with `3` lead
/// east. `plan` builds it from the version and from further keys: the plan's, those of the west, those of the east.
#[macro_export]
macro_rules! west_and_east {
    (
        format $format:literal $($top:literal)*;
        west $($of_west:literal)*;
        east $($of_east:literal)*;
    ) => {
        $crate::plan!(
            format $format $($top)*;
            worker "127.0.0.1" 4569;
            peer "west" 5001 worker 0 $($of_west)* "numbers = 4";
            peer "east" 5002 worker 0 $($of_east)* "numbers = 4";
            route "3" "east";
        )
    };
}
