//! The client of a handle, and the replies of the map.
ghost use Rattle.std.specs.Prelude.{◌≡◌};
ghost use Rattle.moc_c.specs.Sharing.{no_client};

use crate::member::Member;
use moc_parts::Replies;

/// A client of a map, if the handle has one, and the replies to its last line.
#[derive(Drop)]
pub struct ClientState {
    pub(crate) member: Option<Member>,
    pub(crate) replies: Option<Replies>,
}

impl ClientState {
    /// Returns a state without a client and without replies. Does not allocate.
    pub(crate) fn no_client() -> ClientState
        ensures { result ≡ no_client }
    {
        ClientState {
            member: None,
            replies: None,
        }
    }
}
