//! What is held back of one sender: a ring of places for the numbers from the next (`ring`), and an ordered map of
//! those farther away (`far`). While the map has a number, the ring has room for all its places, so a turn allocates
//! nothing.
ghost use Rattle.std.specs.Prelude.{◌≡◌, ◌≢◌, ◌+◌, ◌<◌, ◌≤◌, ◌^◌, ◌∷◌, ◌++◌, ◌==◌, ◌&&◌, ◌||◌, length, drop, [], None, false, nat_lt, IsTrue, IsSome, IfOk, OnOk, OnErr, vec_len, vec_capacity};
ghost use Rattle.std.specs.Option.{option_copied};
ghost use Rattle.std.specs.VecDeque.{deque_capacity};
ghost use Rattle.cast_model.specs.History.{numbered};
ghost use Rattle.cast_fifo.specs.HeldBack.{nothing_held, waiting_at, came, marked, with_item, with_waiting, run_from, known_items, known_after, offered_items, offered_after, heard_items, heard_after, advanced, item_first};
ghost use Rattle.cast_message.specs.Items.{is_close};
ghost use Rattle.cast_fifo.specs.Windows.{held_in, entries_of, StartsUnmarked, IsWindow};

use crate::far::{mark_far, take_first};
use crate::ring::{REACH, add_places, due, make_places, mark_place, take_front, take_marked};
use crate::waiting::Waiting;
use cast_message::{Item, Message, NodeId};
use std::alloc::{AllocError, Global};
use std::collections::{BTreeMap, VecDeque};
use std::marker::Model;

/// The messages of one sender that wait for their turn.
#[derive(Drop)]
pub struct Queue {
    // The number whose turn is next.
    next: u64,
    // Whether a Close had its turn.
    closed: bool,
    // The numbers from `next` on.
    ring: VecDeque<Option<Waiting>>,
    // The numbers beyond the ring.
    far: BTreeMap<u64, Waiting>,
}

impl Model for Queue {
    ghost use Rattle.std.specs.VecDeque.{deque_capacity};
    ghost use Rattle.cast_fifo.specs.HeldBack.{HeldBack};
    ghost use Rattle.cast_fifo.specs.Windows.{held_in, StartsUnmarked, IsWindow};

    ghost Value = { HeldBack };

    ghost view = { λ q. held_in q.next q.closed q.ring.items q.far.entries };

    ghost invariant = { λ q. IsWindow q.next q.ring.items q.far.entries (deque_capacity q.ring)
        × StartsUnmarked q.ring.items };
}

impl Queue {
    /// A queue that holds nothing.
    pub fn new(alloc: Global) -> Queue
        ensures { result ≡ nothing_held }
    {
        Queue {
            next: 0,
            closed: false,
            ring: VecDeque::new(alloc),
            far: BTreeMap::new(alloc),
        }
    }

    /// The number whose turn is next.
    pub fn next(&self) -> u64
        ensures { result ≡ self.now.next }
    {
        self.next
    }

    /// Whether a Close had its turn.
    pub fn closed(&self) -> bool
        ensures { result ≡ self.now.closed }
    {
        self.closed
    }

    /// Keeps an item; if two have the same number, the first counts.
    pub fn hold(&mut self, number: u64, item: Item) -> Result<(), AllocError>
        requires { number + 1 < 2 ^ 64 }
        ensures ok { OnOk result (self.new ≡ with_item self.old number item) }
        ensures err { OnErr result (self.new ≡ self.old) }
    {
        if self.came(number) {
            return Ok(());
        }
        self.keep(number, item)
    }

    /// Whether the number had its turn or waits.
    pub fn came(&self, number: u64) -> bool
        ensures { result ≡ came self.now number }
    {
        number < self.next || self.at(number).is_some()
    }

    /// Whether the number had its turn, so that marking it changes nothing.
    pub fn had_turn(&self, number: u64) -> bool
        ensures test { result ≡ nat_lt number self.now.next }
        ensures nothing { IsTrue result → known_items self.now number ≡ [] }
        ensures same { IsTrue result → known_after self.now number ≡ self.now }
    {
        number < self.next
    }

    /// Copies of the messages whose turn comes if the number is marked, or if this item is offered for it, the next.
    pub fn ready(
        &self,
        alloc: Global,
        sender: NodeId,
        number: u64,
        offered: Option<&Item>,
    ) -> Result<Vec<Message>, AllocError>
        requires { IsSome offered → number ≡ self.now.next }
        ensures { IfOk result (λ messages. messages.items
            ≡ numbered sender self.now.next
            (heard_items self.now number (option_copied offered.entry))) }
    {
        if number != self.next {
            return Ok(Vec::new(alloc));
        }
        let Some(first) = self.first(offered) else {
            return Ok(Vec::new(alloc));
        };
        copies(alloc, sender, number, first, &self.ring, &self.far)
    }

    /// Marks a number, or takes the item offered for the next one, and appends the items whose turn has come to
    /// `items`, which has room for them.
    pub fn release(&mut self, number: u64, offered: Option<Item>, items: &mut Vec<Item>)
        requires number { IsSome offered → number + 1 < 2 ^ 64 }
        requires offered { IsSome offered → number ≡ self.old.next }
        requires room { vec_len items.old + length (heard_items self.old number offered)
            ≤ vec_capacity items.old }
        ensures items { items.new.items ≡ items.old.items ++ heard_items self.old number offered }
        ensures after { self.new ≡ heard_after self.old number offered }
    {
        match offered {
            Some(item) => self.take(item, items),
            None => self.mark(number, items),
        }
    }

    // Gives the next number its turn. Its item is the one that waits, or else this one.
    fn take(&mut self, item: Item, items: &mut Vec<Item>)
        requires number { self.old.next + 1 < 2 ^ 64 }
        requires room { vec_len items.old + length (offered_items self.old self.old.next item)
            ≤ vec_capacity items.old }
        ensures items { items.new.items
            ≡ items.old.items ++ offered_items self.old self.old.next item }
        ensures after { self.new ≡ offered_after self.old self.old.next item }
    {
        let first = take_front(&mut self.ring, item);
        pass(
            &mut self.next,
            &mut self.closed,
            &mut self.ring,
            &mut self.far,
            first,
            items,
        );
        advance(
            &mut self.next,
            &mut self.closed,
            &mut self.ring,
            &mut self.far,
            items,
        );
    }

    /// Marks a number, and appends the items whose turn has come.
    pub fn mark(&mut self, number: u64, items: &mut Vec<Item>)
        requires { number ≡ self.old.next → vec_len items.old
            + length (known_items self.old number) ≤ vec_capacity items.old }
        ensures items { items.new.items ≡ items.old.items ++ known_items self.old number }
        ensures after { self.new ≡ known_after self.old number }
        ensures other { number ≢ self.old.next → known_items self.old number ≡ [] }
    {
        if number < self.next {
            return;
        }
        mark_at(self.next, &mut self.ring, &mut self.far, number);
        advance(
            &mut self.next,
            &mut self.closed,
            &mut self.ring,
            &mut self.far,
            items,
        );
    }

    // The item of the next number: the one that waits, or else the offered one.
    fn first<'a>(&'a self, offered: Option<&'a Item>) -> Option<&'a Item>
        ensures { option_copied result
            ≡ item_first (waiting_at self.now.waiting self.now.next) (option_copied offered.entry) }
    {
        match self.at(self.next) {
            Some(waiting) => Some(&waiting.item),
            None => offered,
        }
    }

    // What waits at a number.
    fn at(&self, number: u64) -> Option<&Waiting>
        requires { self.now.next ≤ number }
        ensures { option_copied result ≡ waiting_at self.now.waiting number }
    {
        let place = number - self.next;
        if place >= REACH {
            return self.far.get(&number);
        }
        self.ring.get(place as usize)?.as_ref()
    }

    // Keeps an item at a number that has none.
    fn keep(&mut self, number: u64, item: Item) -> Result<(), AllocError>
        requires new { came self.old number ≡ false }
        requires number { number + 1 < 2 ^ 64 }
        ensures ok { OnOk result (self.new ≡ with_waiting self.old number
            (record { item = item; known = false })) }
        ensures err { OnErr result (self.new ≡ self.old) }
    {
        let waiting = Waiting { item, known: false };
        let place = number - self.next;
        if place >= REACH {
            self.ring.reserve(REACH as usize - self.ring.len())?;
            self.far.insert(number, waiting)?;
            return Ok(());
        }
        make_places(&mut self.ring, place as usize)?;
        self.ring[place as usize] = Some(waiting);
        Ok(())
    }
}

// Copies of the message of the next number, which has this item, and of the marked messages right after it.
fn copies(
    alloc: Global,
    sender: NodeId,
    next: u64,
    first: &Item,
    ring: &VecDeque<Option<Waiting>>,
    far: &BTreeMap<u64, Waiting>,
) -> Result<Vec<Message>, AllocError>
    requires { IsWindow next ring.now.items far.now.entries (deque_capacity ring.now) }
    ensures { IfOk result (λ messages. messages.items ≡ numbered sender next (first.now
        ∷ run_from (next + 1) (entries_of (next + 1) (drop 1 ring.now.items) far.now.entries))) }
{
    let mut messages = Vec::new(alloc);
    put_copy(&mut messages, sender, next, first)?;
    for place in 1..ring.len() {
        let Some(item) = due(&ring[place]) else {
            return Ok(messages);
        };
        put_copy(&mut messages, sender, next + place as u64, item)?;
    }
    for (number, waiting) in far {
        if !has_turn(*number, waiting, next, messages.len()) {
            return Ok(messages);
        }
        put_copy(&mut messages, sender, *number, &waiting.item)?;
    }
    Ok(messages)
}

// Whether what waits at a number is marked, and `count` numbers lie between `next` and it.
fn has_turn(number: u64, waiting: &Waiting, next: u64, count: usize) -> bool
    ensures { result ≡ (number == next + count && waiting.now.known) }
{
    number.checked_sub(next) == Some(count as u64) && waiting.known
}

// Adds a message with a copy of this item.
fn put_copy(
    messages: &mut Vec<Message>,
    sender: NodeId,
    number: u64,
    item: &Item,
) -> Result<(), AllocError>
    ensures { OnOk result (messages.new.items ≡ messages.old.items
        ++ record { sender = sender; number = number; item = item.now } ∷ []) }
{
    let item = item.copy()?;
    messages.push(Message {
        sender,
        number,
        item,
    })?;
    Ok(())
}

// Marks what waits at a number, if anything does.
fn mark_at(
    next: u64,
    ring: &mut VecDeque<Option<Waiting>>,
    far: &mut BTreeMap<u64, Waiting>,
    number: u64,
)
    requires from { next ≤ number }
    requires window { IsWindow next ring.old.items far.old.entries (deque_capacity ring.old) }
    ensures window { IsWindow next ring.new.items far.new.entries (deque_capacity ring.new) }
    ensures entries { entries_of next ring.new.items far.new.entries
        ≡ marked (entries_of next ring.old.items far.old.entries) number
        (waiting_at (entries_of next ring.old.items far.old.entries) number) }
{
    let place = number - next;
    if place >= REACH {
        mark_far(far, number);
    } else if place < ring.len() as u64 {
        mark_place(&mut ring[place as usize]);
    }
}

// Gives the marked messages from the next number on their turn.
fn advance(
    next: &mut u64,
    closed: &mut bool,
    ring: &mut VecDeque<Option<Waiting>>,
    far: &mut BTreeMap<u64, Waiting>,
    items: &mut Vec<Item>,
)
    requires window { IsWindow next.old ring.old.items far.old.entries (deque_capacity ring.old) }
    requires room { vec_len items.old
        + length (run_from next.old (entries_of next.old ring.old.items far.old.entries))
        ≤ vec_capacity items.old }
    ensures window { IsWindow next.new ring.new.items far.new.entries (deque_capacity ring.new) }
    ensures starts { StartsUnmarked ring.new.items }
    ensures items { items.new.items ≡ items.old.items
        ++ run_from next.old (entries_of next.old ring.old.items far.old.entries) }
    ensures after { held_in next.new closed.new ring.new.items far.new.entries
        ≡ advanced (held_in next.old closed.old ring.old.items far.old.entries) }
{
    while let Some(item) = take_marked(ring) {
        pass(next, closed, ring, far, item, items);
    }
}

// Gives the next number, whose place is gone, its turn.
fn pass(
    next: &mut u64,
    closed: &mut bool,
    ring: &mut VecDeque<Option<Waiting>>,
    far: &mut BTreeMap<u64, Waiting>,
    item: Item,
    items: &mut Vec<Item>,
)
    requires window { IsWindow next.old (None ∷ ring.old.items) far.old.entries
        (deque_capacity ring.old) }
    requires room { vec_len items.old < vec_capacity items.old }
    ensures window { IsWindow next.new ring.new.items far.new.entries (deque_capacity ring.new) }
    ensures waiting { entries_of next.new ring.new.items far.new.entries
        ≡ entries_of next.new ring.old.items far.old.entries }
    ensures next { next.new ≡ next.old + 1 }
    ensures closed { closed.new ≡ (closed.old || is_close item) }
    ensures items { items.new.items ≡ items.old.items ++ item ∷ [] }
    ensures len { vec_len items.new ≡ vec_len items.old + 1 }
    ensures room { vec_capacity items.new ≡ vec_capacity items.old }
{
    *closed = *closed || item.is_close();
    items.push_reserved(item);
    reach(*next, ring, far);
    *next += 1;
}

// Moves the number that the ring reaches, after this one has passed, from the map to the ring.
fn reach(passed: u64, ring: &mut VecDeque<Option<Waiting>>, far: &mut BTreeMap<u64, Waiting>)
    requires { IsWindow passed (None ∷ ring.old.items) far.old.entries (deque_capacity ring.old) }
    ensures window { IsWindow (passed + 1) ring.new.items far.new.entries
        (deque_capacity ring.new) }
    ensures waiting { entries_of (passed + 1) ring.new.items far.new.entries
        ≡ entries_of (passed + 1) ring.old.items far.old.entries }
{
    let Some((first, _)) = far.first_key_value() else {
        return;
    };
    if *first - passed > REACH {
        return;
    }
    add_places(ring, REACH as usize - 1 - ring.len());
    let (_, waiting) = take_first(far);
    ring.push_back_reserved(Some(waiting));
}
