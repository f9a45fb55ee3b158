//! The text of a picture as it grows.
ghost use Rattle.std.specs.Prelude.{◌≡◌};

use crate::label::{put_item_label, put_value_label};
use cast_message::Item;
use cast_record::hex_digit;
use itoa::Buffer;
use std::alloc::{AllocError, Global};
use std::marker::Model;

/// A part of a mark's text.
#[derive(Drop)]
pub enum Piece<'a> {
    /// These bytes.
    Text(&'a [u8]),
    /// The number in decimal.
    Number(u64),
    /// The place as paths name it: the distance from the left, then from the top.
    Place(u64, u64),
    /// The item's word in a record.
    Word(&'a Item),
    /// The item as it is shown beside a mark.
    Label(&'a Item),
    /// The number as it is shown beside a mark.
    Value(u64),
}

/// A text that grows at its end. Contracts see its bytes.
#[derive(Drop)]
pub struct Ink {
    bytes: Vec<u8>,
}

impl Model for Ink {
    ghost use Rattle.std.specs.Prelude.{ℕ, List};

    ghost Value = { List ℕ };

    ghost view = { λ ink. ink.bytes.items };
}

impl Ink {
    /// No text. It allocates nothing.
    pub fn new(alloc: Global) -> Ink {
        Ink {
            bytes: Vec::new(alloc),
        }
    }

    pub fn as_slice(&self) -> &[u8]
        ensures { result.now ≡ self.now }
    {
        self.bytes.as_slice()
    }

    /// Appends the pieces.
    pub fn put(&mut self, pieces: &[Piece<'_>]) -> Result<(), AllocError> {
        for piece in pieces {
            self.put_piece(piece)?;
        }
        Ok(())
    }

    fn put_piece(&mut self, piece: &Piece<'_>) -> Result<(), AllocError> {
        match piece {
            Piece::Text(text) => self.put_bytes(text),
            Piece::Number(number) => self.put_number(*number),
            Piece::Place(x, y) => self.put_place(*x, *y),
            Piece::Word(item) => self.put_word(item),
            Piece::Label(item) => put_item_label(self, item),
            Piece::Value(value) => put_value_label(self, *value),
        }
    }

    /// Appends bytes.
    pub fn put_bytes(&mut self, bytes: &[u8]) -> Result<(), AllocError> {
        self.bytes.extend_from_slice(bytes)
    }

    fn put_number(&mut self, number: u64) -> Result<(), AllocError> {
        self.bytes
            .extend_from_slice(Buffer::new().format(number).as_bytes())
    }

    fn put_place(&mut self, x: u64, y: u64) -> Result<(), AllocError> {
        self.put_number(x)?;
        self.put_bytes(b" ")?;
        self.put_number(y)
    }

    /// Appends two digits for each byte.
    pub fn put_hex(&mut self, bytes: &[u8]) -> Result<(), AllocError> {
        for byte in bytes {
            self.put_bytes(&[hex_digit(*byte / 16), hex_digit(*byte % 16)])?;
        }
        Ok(())
    }

    fn put_word(&mut self, item: &Item) -> Result<(), AllocError> {
        match item {
            Item::Data(payload) => {
                self.put_bytes(b"data:")?;
                self.put_hex(payload.as_slice())
            }
            Item::Propose { instance, value } => {
                self.put_bytes(b"prop:")?;
                self.put_number(*instance)?;
                self.put_bytes(b":")?;
                self.put_number(*value)
            }
            Item::Close => self.put_bytes(b"close"),
        }
    }
}
