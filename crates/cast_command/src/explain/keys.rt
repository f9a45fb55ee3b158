//! The member names of an object, in the order of its text. A parsed value no longer shows that a name occurs twice.
use std::alloc::{AllocError, Global};

/// The first member name that occurs twice in this object, as written. The bytes must be JSON.
pub fn find_key_twice<'a>(alloc: Global, text: &'a [u8]) -> Result<Option<&'a [u8]>, AllocError> {
    let mut seen: Vec<&'a [u8]> = Vec::new(alloc);
    let mut scan = Scan::new();
    for (place, byte) in text.iter().enumerate() {
        if !scan.ends_key(place, *byte) {
            continue;
        }
        let key = text.get(scan.start..scan.end).unwrap_or(&[]);
        if seen.iter().any(|other| *other == key) {
            return Ok(Some(key));
        }
        seen.push(key)?;
    }
    Ok(None)
}

#[derive(Clone, Copy)]
struct Scan {
    // How many objects and lists are open.
    depth: u64,
    // Where the last string begins and ends, without quotes.
    start: usize,
    end: usize,
    is_in_string: bool,
    is_escaped: bool,
}

impl Scan {
    fn new() -> Scan {
        Scan {
            depth: 0,
            start: 0,
            end: 0,
            is_in_string: false,
            is_escaped: false,
        }
    }

    // Takes the next byte. Returns whether it is the colon after a name of the outermost object, which is then the last
    // string.
    fn ends_key(&mut self, place: usize, byte: u8) -> bool {
        if self.is_in_string {
            self.take_in_string(place, byte);
            return false;
        }
        match byte {
            b'"' => {
                self.is_in_string = true;
                self.start = place.saturating_add(1);
            }
            b'{' | b'[' => self.depth = self.depth.saturating_add(1),
            b'}' | b']' => self.depth = self.depth.saturating_sub(1),
            _ => {}
        }
        byte == b':' && self.depth == 1
    }

    fn take_in_string(&mut self, place: usize, byte: u8) {
        if self.is_escaped {
            self.is_escaped = false;
        } else if byte == b'\\' {
            self.is_escaped = true;
        } else if byte == b'"' {
            self.is_in_string = false;
            self.end = place;
        }
    }
}
