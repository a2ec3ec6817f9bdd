//! A plan to begin with.

/// A plan of the newest version, for two sites: the text of `contrib/plan.toml`.
pub const SAMPLE: &str = "# Two sites and the exchange between them. Put your own addresses,\n\
# secrets and prefixes in place of these.\n\
format = 4\n\
\n\
# A worker is a thread with a socket. Its peers send to this address.\n\
[[worker]]\n\
address = \"192.0.2.1\"\n\
port = 4569\n\
\n\
# A peer is a site. An Asterisk there has a section with the name of\n\
# this user, and the same secret.\n\
[[peer]]\n\
name = \"head-office\"\n\
address = \"192.0.2.10\"\n\
port = 4569\n\
worker = 0\n\
user = \"exchange\"\n\
secret = \"put the secret of the head office here\"\n\
formats = [\"alaw\", \"ulaw\"]\n\
trunk = true\n\
numbers = 256\n\
\n\
[[peer]]\n\
name = \"harbour\"\n\
address = \"198.51.100.20\"\n\
port = 4569\n\
worker = 0\n\
user = \"exchange\"\n\
secret = \"put the secret of the harbour here\"\n\
formats = [\"alaw\", \"ulaw\"]\n\
trunk = true\n\
numbers = 64\n\
\n\
# A called number goes to the peer of the longest prefix with which it\n\
# begins. A route with a source is only for calls of that peer, so no\n\
# site's call comes back to it.\n\
[[route]]\n\
prefix = \"1\"\n\
source = \"harbour\"\n\
peer = \"head-office\"\n\
\n\
[[route]]\n\
prefix = \"2\"\n\
source = \"head-office\"\n\
peer = \"harbour\"\n";
