//! The words of a line, one by one.
use cast_message::{Item, NodeId};
use cast_record::{ItemWord, number};
use std::alloc::{AllocError, Global};

#[derive(Clone, Copy)]
pub struct LogWords<'a> {
    rest: Option<&'a [u8]>,
}

impl<'a> LogWords<'a> {
    /// The words of a line, each separated by one blank.
    pub fn of(line: &'a [u8]) -> LogWords<'a> {
        LogWords { rest: Some(line) }
    }

    /// The next word, if there is one.
    pub fn word(&mut self) -> Option<&'a [u8]> {
        let rest = self.rest?;
        match rest.iter().position(|byte| *byte == b' ') {
            Some(at) => {
                self.rest = Some(&rest[at + 1..]);
                Some(&rest[..at])
            }
            None => {
                self.rest = None;
                Some(rest)
            }
        }
    }

    pub fn number(&mut self) -> Option<u64> {
        number(self.word()?)
    }

    pub fn node(&mut self) -> Option<NodeId> {
        NodeId::from_number(self.number()?)
    }

    /// The item that the next word spells. The only error is out of memory.
    pub fn item(&mut self, alloc: Global) -> Result<Option<Item>, AllocError> {
        let Some(word) = self.word() else {
            return Ok(None);
        };
        match ItemWord::read(word) {
            Some(item) => Ok(Some(item.to_item(alloc)?)),
            None => Ok(None),
        }
    }

    pub fn is_empty(&self) -> bool {
        self.rest.is_none()
    }
}
