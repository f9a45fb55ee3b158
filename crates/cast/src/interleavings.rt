//! All orders in which the messages of a few short streams may come.
ghost use Rattle.std.specs.Prelude.{◌≡◌, ◌↔◌, ◌<◌, ◌≤◌, ◌++◌, ℕ, List as Members, [], Bool, true, length, map, option_to_list, OnOk, IfOk, IfSome, IsNone, IsTrue};
ghost use Rattle.std.specs.List.{sum, Contains};
ghost use Rattle.cast_message.specs.declared.message.Message.{Message};
ghost use Rattle.cast.specs.Orders.{Visits, Checks, HoldsAlong, IsOutcome, IsOrder, AreDifferent, message_at, orders, orders_from, times};

use crate::machine::Machine;
use cast_message::{Item, List, Message, NodeId};
use std::alloc::{AllocError, Global};

/// Sees one order after another.
pub trait OrderVisitor {
    /// What a call may do: the visitor before, the order, the visitor after, and the answer.
    ghost sees: { Self → Members ℕ → Self → Bool → Type 0 };

    /// Sees an order, which has the senders of the messages. Returns whether the walk goes on.
    fn visit(&mut self, order: &[usize]) -> Result<bool, AllocError>
        ensures { IfOk result (λ on. sees self.old order.now self.new on) };
}

// How often the sender is in the order.
fn count_times(order: &[usize], sender: usize) -> usize
    ensures { result ≡ times sender order.now }
{
    order.iter().filter(|other| **other == sender).count()
}

// Goes over all orders that begin with `order` and have as many senders more as steps.
fn walk<V: OrderVisitor>(
    visitor: &mut V,
    counts: &[usize],
    steps: usize,
    order: &mut Vec<usize>,
) -> Result<bool, AllocError>
    ensures same { IfOk result (λ on. on ≡ true → order.new.items ≡ order.old.items) }
    ensures visits { IfOk result (λ on.
        Visits V.sees visitor.old (orders_from counts.now steps order.old.items) visitor.new on) }
{
    if steps == 0 {
        return Ok(visitor.visit(order.as_slice())?);
    }
    let depth = order.len();
    for sender in 0..counts.len() {
        if count_times(order.as_slice(), sender) >= counts[sender] {
            continue;
        }
        order.push(sender)?;
        if !walk(visitor, counts, steps - 1, order)? {
            return Ok(false);
        }
        order.truncate(depth);
    }
    Ok(true)
}

/// What `every_order` checks: a new machine for each order, and what has to hold of it after each message.
pub trait OrderCheck {
    type State: Machine + Drop;

    /// What is known of a machine of which the check holds.
    ghost good: { Self → Self.State → Type 0 } = { λ _ _. Unit {0} };

    /// A machine that has taken no message.
    fn begin(&self, alloc: Global) -> Result<Self::State, AllocError>
        ensures { IfOk result (λ state. Self.State.stands state []) };

    /// Whether the machine is as it should be.
    fn holds(&self, state: &Self::State) -> bool
        ensures { IsTrue result → good self.now state.now };
}

/// What `every_order` found.
#[derive(Debug, Drop, PartialEq)]
pub enum EveryOrder {
    /// The check holds after each message of each order. `orders` is their number.
    AllHold { orders: u64 },
    /// The senders of the messages, in the first order that is refused, up to the message after which it is refused.
    Refused { order: Vec<usize> },
    /// There are more orders than `most`, and the check holds in the first ones.
    More,
    /// There are more than 256 streams, or they have more than `LONGEST_ORDER` messages.
    TooLong,
}

/// How many messages an order may have.
pub const LONGEST_ORDER: usize = 1024;

// The check of one order after another.
#[derive(Drop)]
struct Checking<'a, C> {
    alloc: Global,
    check: &'a C,
    streams: &'a [List<Item>],
    // How many orders it may still take.
    left: u64,
    // What it refused.
    refused: Option<Vec<usize>>,
}

impl<'a, C: OrderCheck> OrderVisitor for Checking<'a, C> {
    ghost use Rattle.cast.specs.Orders.{Checks};

    ghost sees = { Checks C.State.stands C.good };

    fn visit(&mut self, order: &[usize]) -> Result<bool, AllocError>
        ensures { IfOk result (λ on. Checks C.State.stands C.good self.old order.now self.new on) }
    {
        if self.left == 0 {
            return Ok(false);
        }
        self.left -= 1;
        match steps_to_refusal(self.alloc, self.check, self.streams, order)? {
            None => Ok(true),
            Some(steps) => {
                let mut front = Vec::new(self.alloc);
                front.extend_from_slice(&order[..steps])?;
                self.refused = Some(front);
                Ok(false)
            }
        }
    }
}

// How many messages of the order a new machine takes until the check refuses it.
fn steps_to_refusal<C: OrderCheck>(
    alloc: Global,
    check: &C,
    streams: &[List<Item>],
    order: &[usize],
) -> Result<Option<usize>, AllocError>
    ensures holds { IfOk result (λ steps. IsNone steps →
        HoldsAlong C.State.stands C.good check.now streams.now order.now) }
    ensures within { IfOk result (λ steps. IfSome steps (λ n. n ≤ length order.now)) }
{
    let mut state = check.begin(alloc)?;
    if !check.holds(&state) {
        return Ok(Some(0));
    }
    for place in 0..order.len() {
        apply_next(&mut state, streams, order, place)?;
        if !check.holds(&state) {
            return Ok(Some(place + 1));
        }
    }
    Ok(None)
}

// Passes the message at this place of the order to the machine, if the streams have it.
fn apply_next<M: Machine>(
    state: &mut M,
    streams: &[List<Item>],
    order: &[usize],
    place: usize,
) -> Result<(), AllocError>
    requires { place < length order.now }
    ensures { OnOk result ((taken : Members Message) → M.stands state.old taken
        → M.stands state.new (taken ++ option_to_list (message_at streams.now order.now place))) }
{
    let Some(message) = message_at(streams, order, place)? else {
        return Ok(());
    };
    state.apply(&message);
    Ok(())
}

// The message at this place of the order, if the streams have it.
fn message_at(
    streams: &[List<Item>],
    order: &[usize],
    place: usize,
) -> Result<Option<Message>, AllocError>
    requires { place < length order.now }
    ensures { IfOk result (λ message. message ≡ message_at streams.now order.now place) }
{
    let sender = order[place];
    let number = count_times(&order[..place], sender);
    let Some(node) = NodeId::from_number(sender as u64) else {
        return Ok(None);
    };
    let Some(stream) = streams.get(sender) else {
        return Ok(None);
    };
    let Some(item) = stream.as_slice().get(number) else {
        return Ok(None);
    };
    Ok(Some(Message {
        sender: node,
        number: number as u64,
        item: item.copy()?,
    }))
}

// How long each stream is.
fn lengths(alloc: Global, streams: &[List<Item>]) -> Result<Vec<usize>, AllocError>
    ensures { IfOk result (λ counts. counts.items ≡ map length streams.now) }
{
    let mut counts = Vec::new(alloc);
    for stream in streams {
        counts.push(stream.as_slice().len())?;
    }
    Ok(counts)
}

// The sum, unless it is more than the limit.
fn sum_within(counts: &[usize], limit: usize) -> Option<usize>
    ensures some { IfSome result (λ total. total ≡ sum counts.now) }
{
    let mut total = 0usize;
    for count in counts {
        if *count > limit - total {
            return None;
        }
        total += *count;
    }
    Some(total)
}

/// Checks a machine in every order in which the messages of these streams may come: stream s is what sender s broadcast.
/// Each order has the messages of each sender in their order, and all messages. A new machine takes them, and the check
/// has to hold before the first one and after each. So what holds here holds at each node of a group whose senders
/// broadcast these streams, whatever its network does.
///
/// There are as many orders as (n + m)! / (n! m!) for two streams of n and m messages. The call tries `most` of them at
/// most.
pub fn every_order<C: OrderCheck>(
    alloc: Global,
    check: &C,
    streams: &[List<Item>],
    most: u64,
) -> Result<EveryOrder, AllocError>
    ensures { IfOk result (IsOutcome (HoldsAlong C.State.stands C.good check.now streams.now)
        (map length streams.now) most) }
{
    let counts = lengths(alloc, streams)?;
    if streams.len() > 256 {
        return Ok(EveryOrder::TooLong);
    }
    let Some(steps) = sum_within(counts.as_slice(), LONGEST_ORDER) else {
        return Ok(EveryOrder::TooLong);
    };
    let mut checking = Checking {
        alloc,
        check,
        streams,
        left: most,
        refused: None,
    };
    let mut order = Vec::new(alloc);
    if walk(&mut checking, counts.as_slice(), steps, &mut order)? {
        return Ok(EveryOrder::AllHold {
            orders: most.saturating_sub(checking.left),
        });
    }
    match checking.refused {
        Some(order) => Ok(EveryOrder::Refused { order }),
        None => Ok(EveryOrder::More),
    }
}

/// A law of the orders that `every_order` tries: they are exactly those which have all messages, and no sender more often
/// than its stream is long. No two of them are the same.
pub fn tries_each_order_once()
    ensures all { (counts order : Members ℕ) → Contains (orders counts) order ↔ IsOrder counts order }
    ensures once { (counts : Members ℕ) → AreDifferent (orders counts) }
{}
