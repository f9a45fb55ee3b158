//! Reads a text piece by piece.
ghost use Rattle.std.specs.Prelude.{◌≡◌, ℕ, ◌+◌, ◌^◌, ◌<◌, ◌≤◌, ◌++◌, [], ◌∷◌, List, length, nat_lt, option_map, is_some, true, false, Some, IfOk, IfSome, OnOk, OnErr, IsOk, IsErr};
ghost use Rattle.cast_record.specs.Verdicts.{verdict};
ghost use Rattle.cast_record.specs.declared.verdict.Verdict.TheVariants.{Bad};
ghost use Rattle.cast_judge.specs.FitLines.{HasNone, BeginsWell};

use crate::kept::Kept;
use crate::lines::{find_line_feed, judge_line, take_delivery};
use cast_record::Verdict;
use std::alloc::{AllocError, Global};

/// The most bytes kept of an unfinished line. The longest line of the grammar has 2,084.
const MOST_UNFINISHED: usize = 4_096;

/// All pieces together have fewer bytes than this.
const MOST_BYTES: u64 = 1 << 63;

/// The first line that breaks a rule, counted from 1, and the least rule that it breaks.
#[derive(Clone, Copy)]
pub struct Offence {
    pub line: u64,
    pub rule: u64,
}

/// Whether the judge goes on.
#[derive(Clone, Copy)]
enum State {
    /// No line broke a rule so far.
    Reading,
    /// The line after those counted broke this rule.
    Offended { rule: u64 },
    /// Memory ran out.
    Refused,
}

/// A text that is being judged. It keeps the word of each broadcast item, to compare deliveries with, and at most 4,096
/// bytes of an unfinished line.
#[derive(Drop)]
pub struct Judging {
    alloc: Global,
    state: State,
    kept: Kept,
    /// How many lines broke no rule.
    lines: u64,
    fed: u64,
    /// What was read of an unfinished line.
    tail: Vec<u8>,
    ghost short: { length tail.items ≤ 4096 },
    ghost counted: { lines ≤ fed },
    ghost within: { fed < 2 ^ 63 },
}

/// The verdict on the text, or out of memory. A text whose first line breaks a rule needs no memory.
pub fn judge(alloc: Global, text: &[u8]) -> Result<Verdict, AllocError>
    ensures said { IfOk result (λ said. said ≡ verdict text.now) }
    ensures some { OnErr result (0 < length text.now) }
    ensures first { OnErr result (BeginsWell [] text.now) }
{
    let mut judging = Judging::new(alloc);
    judging.feed(text)?;
    judging.finish()
}

impl Judging {
    ghost use Rattle.cast_judge.specs.Judged.{Stands, IsSkipped, TakesDelivery, TakesLine, lines_with, state_with, is_reading, is_offended, is_refused, WantedMemory};

    /// Begins to judge a text; allocates nothing.
    pub fn new(alloc: Global) -> Judging
        ensures fed { result.fed ≡ 0 }
        ensures stands { Stands [] result }
        ensures reading { is_reading result ≡ true }
    {
        Judging {
            alloc,
            state: State::Reading,
            kept: Kept::new(alloc),
            lines: 0,
            fed: 0,
            tail: Vec::new(alloc),
        }
    }

    /// Takes the next piece of the text. All pieces together have fewer than 2^63 bytes. A line that breaks a rule
    /// needs memory only to join its parts, if it came in several pieces. The text after it is skipped and needs none.
    /// Once a piece is refused, all later pieces are, and so is the verdict.
    pub fn feed(&mut self, piece: &[u8]) -> Result<(), AllocError>
        requires { self.old.fed + length piece.now < 2 ^ 63 }
        ensures fed { self.new.fed ≡ self.old.fed + length piece.now }
        ensures stands { (text : List ℕ) → Stands text self.old →
            OnOk result (Stands (text ++ piece.now) self.new) }
        ensures refused { is_refused self.old ≡ true → IsErr result }
        ensures skipped { is_offended self.old ≡ true → IsOk result }
        ensures unchanged { is_reading self.old ≡ false → IsSkipped self.old self.new }
        ensures some { is_reading self.old ≡ true → OnErr result (0 < length piece.now) }
        ensures wants { (text : List ℕ) → Stands text self.old → is_reading self.old ≡ true →
            OnErr result (WantedMemory (text ++ piece.now) self.old self.new) }
        ensures err { OnErr result (is_refused self.new ≡ true) }
        ensures ok { OnOk result (is_refused self.new ≡ false) }
    {
        self.fed += piece.len() as u64;
        match self.state {
            State::Reading => match self.read(piece) {
                Ok(()) => Ok(()),
                Err(refused) => {
                    self.state = State::Refused;
                    Err(refused)
                }
            },
            State::Offended { .. } => Ok(()),
            State::Refused => Err(AllocError),
        }
    }

    /// How many bytes may still be fed, plus one.
    pub fn room(&self) -> u64
        ensures { result + self.now.fed ≡ 2 ^ 63 }
    {
        MOST_BYTES - self.fed
    }

    /// The line that breaks a rule, whatever text follows, or nothing so far. Out of memory if a piece was refused.
    pub fn so_far(&self) -> Result<Option<Offence>, AllocError>
        ensures found { (text more : List ℕ) → Stands text self.now → IfOk result (λ found.
            IfSome found (λ offence. verdict (text ++ more) ≡ Bad offence.line offence.rule)) }
        ensures offended { IfOk result (λ found. is_some found ≡ is_offended self.now) }
        ensures refused { is_refused self.now ≡ true → IsErr result }
        ensures ok { is_refused self.now ≡ false → IsOk result }
    {
        match self.state {
            State::Reading => Ok(None),
            State::Offended { rule } => Ok(Some(Offence {
                line: self.lines + 1,
                rule,
            })),
            State::Refused => Err(AllocError),
        }
    }

    /// How many lines were read that broke no rule.
    pub fn lines(&self) -> u64
        ensures { result ≡ self.now.lines }
    {
        self.lines
    }

    /// The verdict on all pieces joined. It allocates nothing, and reports out of memory only if a piece was refused.
    pub fn finish(self) -> Result<Verdict, AllocError>
        ensures said { (text : List ℕ) → Stands text self →
            IfOk result (λ said. said ≡ verdict text) }
        ensures refused { is_refused self ≡ true → IsErr result }
        ensures ok { is_refused self ≡ false → IsOk result }
    {
        match self.state {
            State::Reading => {
                if self.kept.is_ended() && self.tail.is_empty() {
                    Ok(Verdict::Good)
                } else {
                    Ok(Verdict::Bad {
                        line: self.lines + 1,
                        rule: 0,
                    })
                }
            }
            State::Offended { rule } => Ok(Verdict::Bad {
                line: self.lines + 1,
                rule,
            }),
            State::Refused => Err(AllocError),
        }
    }

    // Takes a piece while no line broke a rule.
    fn read(&mut self, piece: &[u8]) -> Result<(), AllocError>
        requires reading { is_reading self.old ≡ true }
        requires room { self.old.lines + length piece.now ≤ self.old.fed }
        ensures fed { self.new.fed ≡ self.old.fed }
        ensures stands { (text : List ℕ) → Stands text self.old →
            OnOk result (Stands (text ++ piece.now) self.new) }
        ensures ok { OnOk result (is_refused self.new ≡ false) }
        ensures some { OnErr result (0 < length piece.now) }
        ensures wants { (text : List ℕ) → Stands text self.old →
            OnErr result (WantedMemory (text ++ piece.now) self.old self.new) }
    {
        let mut rest = piece;
        while let Some(after) = self.take_line(rest)? {
            if !self.is_reading() {
                return Ok(());
            }
            rest = after;
        }
        self.keep_tail(rest)
    }

    // Takes a line and its line feed off the front of the bytes, and returns the rest. At `None` there is no line feed,
    // and nothing changed.
    fn take_line<'a>(&mut self, bytes: &'a [u8]) -> Result<Option<&'a [u8]>, AllocError>
        requires reading { is_reading self.old ≡ true }
        requires room { self.old.lines + length bytes.now ≤ self.old.fed }
        ensures fed { self.new.fed ≡ self.old.fed }
        ensures taken { IfOk result (λ after. TakesLine bytes.now self.old self.new
            (option_map (λ rest. rest.now) after)) }
        ensures some { OnErr result (0 < length bytes.now) }
        ensures wants { (text : List ℕ) → Stands text self.old →
            OnErr result (WantedMemory (text ++ bytes.now) self.old self.new) }
    {
        if let Some(after) = self.take_delivery(bytes) {
            return Ok(Some(after));
        }
        let Some(at) = find_line_feed(bytes) else {
            return Ok(None);
        };
        self.end_line(&bytes[..at])?;
        Ok(Some(&bytes[at + 1..]))
    }

    // Takes a line `d` that breaks no rule, if no line is unfinished, without first looking for its end: most lines are
    // like that. At `None` nothing changed.
    fn take_delivery<'a>(&mut self, bytes: &'a [u8]) -> Option<&'a [u8]>
        requires reading { is_reading self.old ≡ true }
        requires room { self.old.lines + length bytes.now ≤ self.old.fed }
        ensures fed { self.new.fed ≡ self.old.fed }
        ensures taken { TakesDelivery bytes.now self.old self.new
            (option_map (λ after. after.now) result) }
    {
        if !self.tail.is_empty() {
            return None;
        }
        let after = take_delivery(&mut self.kept, bytes)?;
        self.count(None);
        Some(after)
    }

    fn is_reading(&self) -> bool
        ensures { result ≡ is_reading self.now }
    {
        matches!(self.state, State::Reading)
    }

    // Takes the part before a line feed, and the line feed.
    fn end_line(&mut self, part: &[u8]) -> Result<(), AllocError>
        requires reading { is_reading self.old ≡ true }
        requires clean { HasNone 10 part.now }
        requires room { self.old.lines + length part.now + 1 ≤ self.old.fed }
        ensures fed { self.new.fed ≡ self.old.fed }
        ensures lines { self.new.lines ≤ self.old.lines + 1 }
        ensures stands { (text : List ℕ) → Stands text self.old →
            OnOk result (Stands (text ++ (part.now ++ 10 ∷ [])) self.new) }
        ensures ok { OnOk result (is_refused self.new ≡ false) }
        ensures emptied { OnOk result (self.new.tail.items ≡ []) }
        ensures wants { (text after : List ℕ) → Stands text self.old →
            OnErr result (WantedMemory (text ++ (part.now ++ 10 ∷ after)) self.old self.new) }
    {
        if self.tail.is_empty() {
            let broken = judge_line(&mut self.kept, part)?;
            self.count(broken);
            return Ok(());
        }
        if self.is_too_long(part) {
            self.offend();
            return Ok(());
        }
        self.tail.extend_from_slice(part)?;
        let broken = judge_line(&mut self.kept, self.tail.as_slice())?;
        self.tail.clear();
        self.count(broken);
        Ok(())
    }

    // Whether the unfinished line would be too long with this part.
    fn is_too_long(&self, part: &[u8]) -> bool
        ensures { result ≡ nat_lt 4096 (length self.now.tail.items + length part.now) }
    {
        part.len() > MOST_UNFINISHED || self.tail.len() > MOST_UNFINISHED - part.len()
    }

    // Drops the unfinished line, which breaks a rule.
    fn offend(&mut self)
        requires { self.old.lines < self.old.fed }
        ensures kept { self.new.kept ≡ self.old.kept }
        ensures tail { self.new.tail.items ≡ [] }
        ensures fed { self.new.fed ≡ self.old.fed }
        ensures lines { self.new.lines ≡ self.old.lines }
        ensures state { self.new.state ≡ state_with (Some 0) self.old.state }
    {
        self.tail.clear();
        self.count(Some(0));
    }

    // Counts a line that broke no rule, or notes the rule that it broke.
    fn count(&mut self, broken: Option<u64>)
        requires { self.old.lines < self.old.fed }
        ensures kept { self.new.kept ≡ self.old.kept }
        ensures tail { self.new.tail ≡ self.old.tail }
        ensures fed { self.new.fed ≡ self.old.fed }
        ensures lines { self.new.lines ≡ lines_with broken self.old.lines }
        ensures state { self.new.state ≡ state_with broken self.old.state }
    {
        match broken {
            None => self.lines += 1,
            Some(rule) => self.state = State::Offended { rule },
        }
    }

    // Keeps the beginning of an unfinished line.
    fn keep_tail(&mut self, part: &[u8]) -> Result<(), AllocError>
        requires reading { is_reading self.old ≡ true }
        requires clean { HasNone 10 part.now }
        requires room { self.old.lines + length part.now ≤ self.old.fed }
        ensures fed { self.new.fed ≡ self.old.fed }
        ensures stands { (text : List ℕ) → Stands text self.old →
            OnOk result (Stands (text ++ part.now) self.new) }
        ensures ok { OnOk result (is_refused self.new ≡ false) }
        ensures some { OnErr result (0 < length part.now) }
        ensures wants { (text : List ℕ) → Stands text self.old →
            OnErr result (WantedMemory (text ++ part.now) self.old self.new) }
    {
        if part.is_empty() {
            return Ok(());
        }
        if self.kept.is_ended() || self.is_too_long(part) {
            self.offend();
            return Ok(());
        }
        self.tail.extend_from_slice(part)
    }
}
