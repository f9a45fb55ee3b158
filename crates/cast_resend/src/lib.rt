//! Which slots are due: to be sent, or to be sent again.
//!
//! A slot that was never sent is due, within a window. So is a slot that was sent 256 turns ago and is not yet
//! acknowledged. Slots are first sent in order, so only the last 256 turns are remembered: anything sent earlier is due
//! or acknowledged.
//!
//! An engine sends one slot a turn, to the next peer in a circle that has one due. A slot that is due again goes before
//! one that was never sent. So no more slots of a peer are due again than were sent to it in those 256 turns, and room
//! for them is allocated at the start.
//!
//! A turn walks the peers by their bits in one word. It skips a peer that had nothing due and has got nothing since. A
//! peer whose engine has ended takes nothing more, and leaves the circle for good. No contract says which engines have
//! ended: the contracts here speak of the peers that are not known to have ended.
//!
//! A window bounds the slots under way to a peer: those after the last acknowledged one, up to the last one sent. A
//! turn takes one parcel and may make two. So engines that send whatever is due would fill one another's inboxes, and
//! what finds no place there is lost and sent again. With the window, a node's inbox has room for the frames on the way
//! to it and the acknowledgements of its own. That needs two places for each peer, and no slot that is sent again.
//!
//! What lies in a full inbox waits for as many turns as it has places, and so does the acknowledgement on its way back.
//! So a window above a quarter of the 256 turns would have slots sent again that were not lost.
//!
//! A slot before an acknowledged one counts as no longer under way. That is right if each was sent once and no frame is
//! delayed, since boxes keep their order: it was taken, or was lost. A frame that a plan delays, or that was sent
//! again, may still be under way; the window does not count it.
#![tactic(auto)]

mod due;
mod peers;
mod resend;

pub use due::{Due, brings_news, is_owed};
pub use peers::PeerSet;
pub use resend::{Resend, Sent, TURNS_UNTIL_AGAIN, forgets_nothing};
