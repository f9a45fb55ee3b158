//! What the application learns.
use cast_log::{EntryKind, KindRef, OpenLog};
use cast_message::{Decision, Event, Message};
use std::alloc::AllocError;

/// What a step did.
#[derive(Debug, Drop, PartialEq)]
pub enum News {
    /// An item that was ordered here has this number in the node's stream.
    Ordered { number: u64 },
    Delivered(Message),
    Decided(Decision),
}

/// How much the application has learned.
#[derive(Drop)]
pub struct Place {
    entry: usize,
    // In the entry: first an order's number, then its deliveries, then its decisions.
    number: usize,
    // The number of items ordered before.
    ordered: u64,
}

impl Place {
    /// Nothing was learned yet.
    pub fn first() -> Place {
        Place {
            entry: 0,
            number: 0,
            ordered: 0,
        }
    }
}

/// The next news of a log's first `entries` entries, from this place on. The place moves past it, unless memory runs
/// out.
pub fn next_news(
    place: &mut Place,
    log: &OpenLog,
    entries: usize,
) -> Result<Option<News>, AllocError> {
    let end = entries.min(log.len());
    while place.entry < end {
        if let KindRef::Whole(EntryKind::Step { event, outcome, .. }) = log
            .entry(place.entry)
            .kind
        {
            let deliveries = outcome.deliveries.as_slice();
            let decisions = outcome.decisions.as_slice();
            let is_order = matches!(event, Event::Order { .. });
            if let Some(news) = news_at(is_order, place, deliveries, decisions)? {
                place.number = place.number.saturating_add(1);
                return Ok(Some(news));
            }
            place.ordered = place.ordered.saturating_add(u64::from(is_order));
        }
        place.entry += 1;
        place.number = 0;
    }
    Ok(None)
}

fn news_at(
    is_order: bool,
    place: &Place,
    deliveries: &[Message],
    decisions: &[Decision],
) -> Result<Option<News>, AllocError> {
    if is_order && place.number == 0 {
        return Ok(Some(News::Ordered {
            number: place.ordered,
        }));
    }
    let number = place.number.saturating_sub(usize::from(is_order));
    if let Some(message) = deliveries.get(number) {
        return Ok(Some(News::Delivered(message.copy()?)));
    }
    match decisions.get(number.saturating_sub(deliveries.len())) {
        Some(decision) => Ok(Some(News::Decided(*decision))),
        None => Ok(None),
    }
}
