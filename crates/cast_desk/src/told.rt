//! What the client of a node is notified of, computed from the node's log.
ghost use Rattle.std.specs.Prelude.{◌≡◌, ◌≢◌, ◌++◌, [], IfOk, OnOk, OnErr};
ghost use Rattle.std.specs.Option.{option_to_list};
ghost use Rattle.cast_desk.specs.Feed.{feed as feed_of, told_by, reply_of, refusal_of, news_of, orders_in};

use crate::notice::Notice;
use cast_log::{EntryKind, KindRef, Log, Origin};
use cast_message::{Event, List, Outcome, StepFault};
use std::alloc::{AllocError, Global};

/// The notices for this client from a log, entry by entry: the reply to its own order, then each message that the step
/// delivered, then each decision. The reply has the number of orders before it in the log, or the fault that refused
/// it. Memory is needed only if there is a notice.
pub fn feed(alloc: Global, log: &Log, client: u64) -> Result<List<Notice>, AllocError>
    ensures ok { IfOk result (λ notices. notices ≡ feed_of log.now client) }
    ensures err { OnErr result (feed_of log.now client ≢ []) }
{
    let mut notices = List::new(alloc);
    let mut orders = 0;
    for place in 0..log.len() {
        if let KindRef::Whole(kind) = log.entry(place).kind {
            tell(&mut notices, client, orders, kind)?;
            orders = orders.wrapping_add(orders_in(kind));
        }
    }
    Ok(notices)
}

fn tell(
    notices: &mut List<Notice>,
    client: u64,
    number: u64,
    kind: &EntryKind,
) -> Result<(), AllocError>
    ensures ok { OnOk result (notices.new ≡ notices.old ++ told_by client number kind.now) }
    ensures err { OnErr result (told_by client number kind.now ≢ []) }
{
    match kind {
        EntryKind::Step {
            event,
            origin,
            outcome,
        } => {
            tell_reply(notices, client, event, origin, number)?;
            tell_news(notices, outcome)
        }
        EntryKind::Refused { origin, fault } => tell_refusal(notices, client, *origin, *fault),
    }
}

fn tell_reply(
    notices: &mut List<Notice>,
    client: u64,
    event: &Event,
    origin: &Option<Origin>,
    number: u64,
) -> Result<(), AllocError>
    ensures ok { OnOk result (notices.new ≡ notices.old
        ++ reply_of client event.now origin.now number) }
    ensures err { OnErr result (reply_of client event.now origin.now number ≢ []) }
{
    match own_reply(client, event, origin, number) {
        Some(reply) => notices.push(reply),
        None => Ok(()),
    }
}

/// The reply to a step that is this client's order; `number` counts the orders before it in the log. It allocates
/// nothing.
pub fn own_reply(client: u64, event: &Event, origin: &Option<Origin>, number: u64) -> Option<Notice>
    ensures { option_to_list result ≡ reply_of client event.now origin.now number }
{
    if let (Event::Order { .. }, Some(origin)) = (event, origin) {
        if origin.client == client {
            let outcome = Ok(number);
            let ticket = origin.ticket;
            return Some(Notice::Reply { ticket, outcome });
        }
    }
    None
}

fn tell_refusal(
    notices: &mut List<Notice>,
    client: u64,
    origin: Origin,
    fault: StepFault,
) -> Result<(), AllocError>
    ensures ok { OnOk result (notices.new ≡ notices.old ++ refusal_of client origin fault) }
    ensures err { OnErr result (refusal_of client origin fault ≢ []) }
{
    if origin.client == client {
        let outcome = Err(fault);
        let ticket = origin.ticket;
        return notices.push(Notice::Reply { ticket, outcome });
    }
    Ok(())
}

fn tell_news(notices: &mut List<Notice>, outcome: &Outcome) -> Result<(), AllocError>
    ensures ok { OnOk result (notices.new ≡ notices.old ++ news_of outcome.now) }
    ensures err { OnErr result (news_of outcome.now ≢ []) }
{
    for message in outcome.deliveries.as_slice() {
        notices.push(Notice::Delivered(message.copy()?))?;
    }
    for decision in outcome.decisions.as_slice() {
        notices.push(Notice::Decided(*decision))?;
    }
    Ok(())
}

/// How many orders an entry is: 1 if it took an order, else 0.
pub fn orders_in(kind: &EntryKind) -> u64
    ensures { result ≡ orders_in kind.now }
{
    match kind {
        EntryKind::Step {
            event: Event::Order { .. },
            ..
        } => 1,
        _ => 0,
    }
}
