//! Items as the words that spell them.
ghost use Rattle.std.specs.Prelude.{◌≡◌, true, Some, option_map, IfOk, OnErr};
ghost use Rattle.std.specs.List.{list_all};
ghost use Rattle.cast_record.specs.Reading.{item_of, item_named, data_of, proposal_of, is_data, HasData};
ghost use Rattle.cast_message.specs.Items.{is_close};
ghost use Rattle.cast_record.specs.ItemWords.{kind_of, is_hex, is_hex_digit, proposal_in};

use crate::numbers::number;
use crate::parts::two_parts;
use crate::unhex::bytes_of;
use bytes::Bytes;
use cast_message::{Item, PAYLOAD_LIMIT, Payload};
use std::alloc::{AllocError, Global};
use std::marker::Model;

/// The most hexadecimal digits of a payload.
const MOST_DIGITS: usize = 2 * PAYLOAD_LIMIT;

/// How long the name before the value of an item is, `data:` or `prop:`.
const NAME_LENGTH: usize = 5;

/// How many bytes are looked at before one that is no digit may end the loop.
const BLOCK: usize = 64;

/// What an item is, without the bytes of its data.
#[derive(Clone, Copy, PartialEq, Eq)]
pub enum ItemKind {
    Data,
    Propose { instance: u64, value: u64 },
    Close,
}

/// The word of an item, which no other item has. Contracts see the item.
#[derive(Drop)]
pub struct ItemWord<'a> {
    word: &'a [u8],
    kind: ItemKind,
}

impl<'a> Model for ItemWord<'a> {
    ghost use Rattle.cast_message.specs.declared.message.Item.{Item};

    ghost Value = { Item };

    ghost use Rattle.cast_record.specs.ItemWords.{item_in, SpellsItem};

    ghost view = { λ item. item_in item.word.now };

    ghost invariant = { λ item. SpellsItem item.word.now item.kind };
}

impl<'a> ItemWord<'a> {
    /// The item within its ranges whose word this is, if there is one. It allocates nothing.
    pub fn read(word: &'a [u8]) -> Option<ItemWord<'a>>
        ensures { result ≡ item_of word.now }
    {
        Some(ItemWord {
            word,
            kind: kind(word)?,
        })
    }

    pub fn as_slice(&self) -> &[u8]
        ensures { item_of result.now ≡ Some self.now }
    {
        self.word
    }

    /// Whether it is the last item of a stream.
    pub fn is_close(&self) -> bool
        ensures { result ≡ is_close self.now }
    {
        matches!(self.kind, ItemKind::Close)
    }

    /// The instance and the value, if it is a proposal.
    pub fn proposal(&self) -> Option<(u64, u64)>
        ensures { result ≡ proposal_in self.now }
    {
        match self.kind {
            ItemKind::Propose { instance, value } => Some((instance, value)),
            _ => None,
        }
    }

    /// The item. It takes memory only if it is data.
    pub fn to_item(&self, alloc: Global) -> Result<Item, AllocError>
        ensures exact { IfOk result (λ item. item ≡ self.now) }
        ensures err { OnErr result (is_data self.now ≡ true) }
    {
        match self.kind {
            ItemKind::Data => data_item(alloc, self.word),
            ItemKind::Propose { instance, value } => Ok(Item::Propose { instance, value }),
            ItemKind::Close => Ok(Item::Close),
        }
    }
}

// The item of a word that spells data.
fn data_item(alloc: Global, word: &[u8]) -> Result<Item, AllocError>
    requires { HasData (item_of word.now) }
    ensures { IfOk result (λ item. item_of word.now ≡ Some item) }
{
    match bytes_of(alloc, &word[NAME_LENGTH..])? {
        Some(bytes) => Ok(Item::Data(Payload::new(Bytes::from_vec(bytes)?))),
        None => unreachable!(),
    }
}

fn kind(word: &[u8]) -> Option<ItemKind>
    ensures { result ≡ option_map kind_of (item_of word.now) }
{
    if word == b"close".as_slice() {
        return Some(ItemKind::Close);
    }
    if word.len() < NAME_LENGTH {
        return None;
    }
    kind_named(&word[..NAME_LENGTH], &word[NAME_LENGTH..])
}

fn kind_named(name: &[u8], rest: &[u8]) -> Option<ItemKind>
    ensures { result ≡ option_map kind_of (item_named name.now rest.now) }
{
    if name == b"data:".as_slice() {
        data(rest)
    } else if name == b"prop:".as_slice() {
        proposal(rest)
    } else {
        None
    }
}

fn data(digits: &[u8]) -> Option<ItemKind>
    ensures { result ≡ option_map kind_of (data_of digits.now) }
{
    if digits.len() > MOST_DIGITS {
        return None;
    }
    is_hex(digits).then_some(ItemKind::Data)
}

fn proposal(word: &[u8]) -> Option<ItemKind>
    ensures { result ≡ option_map kind_of (proposal_of word.now) }
{
    let (instance, value) = two_parts(word, b':')?;
    Some(ItemKind::Propose {
        instance: number(instance)?,
        value: number(value)?,
    })
}

// Whether these are the digits of bytes, two for each.
fn is_hex(digits: &[u8]) -> bool
    ensures { result ≡ is_hex digits.now }
{
    if digits.len() % 2 != 0 {
        return false;
    }
    are_digits(digits)
}

fn are_digits(digits: &[u8]) -> bool
    ensures { result ≡ list_all is_hex_digit digits.now }
{
    let mut rest = digits;
    while rest.len() >= BLOCK {
        if !is_block(&rest[..BLOCK]) {
            return false;
        }
        rest = &rest[BLOCK..];
    }
    is_block(rest)
}

// Whether all of these are digits. It looks at each, so a processor can look at many at once.
fn is_block(digits: &[u8]) -> bool
    ensures { result ≡ list_all is_hex_digit digits.now }
{
    let mut are_digits = true;
    for digit in digits {
        are_digits &= is_digit(*digit);
    }
    are_digits
}

fn is_digit(code: u8) -> bool
    ensures { result ≡ is_hex_digit code }
{
    ((code >= b'0') & (code <= b'9')) | ((code >= b'a') & (code <= b'f'))
}
