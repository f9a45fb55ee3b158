//! Giving a message to peers: room is made at each link first, then it is given to those to which it goes. A slot keeps the place of
//! its message.
ghost use Rattle.std.specs.Prelude.{◌≡◌, ◌+◌, ◌≤◌, if◌then◌else◌, length, OnOk};
ghost use Rattle.std.specs.List.{All};
ghost use Rattle.cast_link.specs.Links.{with_given};
ghost use Rattle.cast_node.specs.Giving.{given_on, AreOwed, HasRoom, bare};

use cast_link::LinkOut;
use cast_message::{GroupSet, NodeId};
use cast_relay::goes_on;
use std::alloc::AllocError;

/// Makes room for one more slot at each of these links.
pub fn reserve_all(links: &mut [LinkOut<u32>]) -> Result<(), AllocError>
    ensures same { bare links.new ≡ bare links.old }
    ensures room { OnOk result (All HasRoom links.new) }
{
    let Some((link, rest)) = links.split_first_mut() else {
        return Ok(());
    };
    // There are never 2^64 slots: a message takes at most one.
    if link.given() == u64::MAX {
        return Err(AllocError);
    }
    link.reserve()?;
    reserve_all(rest)
}

/// Gives the message at this place to each of these peers to which it goes on. It is of this sender, and came to the node `me` from
/// the source. The first peer has the number `first`.
pub fn give_all(
    links: &mut [LinkOut<u32>],
    first: u64,
    me: NodeId,
    source: NodeId,
    sender: NodeId,
    place: u32,
)
    requires peers { first + length links.old ≤ 256 }
    requires room { All HasRoom links.old }
    ensures { bare links.new ≡ given_on first me source sender place (bare links.old) }
{
    let Some((link, rest)) = links.split_first_mut() else {
        return;
    };
    give(
        link,
        goes_on(me, sender, source, NodeId(first as u8)),
        place,
    );
    give_all(rest, first + 1, me, source, sender, place);
}

// Gives the message at a place to a peer, if it goes there.
fn give(link: &mut LinkOut<u32>, goes: bool, place: u32)
    requires { HasRoom link.old }
    ensures { link.new.link
        ≡ (if goes then with_given link.old.link place else link.old.link) }
{
    if goes {
        link.give_reserved(place);
    }
}

/// The peers that are owed a slot.
pub fn owed_peers(links: &[LinkOut<u32>]) -> GroupSet
    requires { length links.now ≤ 64 }
    ensures { AreOwed (bare links.now) result }
{
    let mut owed = GroupSet::new();
    for peer in 0..links.len() {
        if links[peer].owed() != 0 {
            owed.insert(NodeId(peer as u8));
        }
    }
    owed
}
