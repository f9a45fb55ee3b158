//! How an engine reports on the stop board whether it is quiet. No contract speaks of it.
use cast_carrier::{Board, QuietWord};
use std::alloc::{AllocError, Global};

/// What an engine knows about its own word on the board.
#[derive(Drop)]
pub struct Quiet {
    node: usize,
    changes: u64,
    quiet: bool,
    // Whether its inbox may hold the last frames of an ended engine.
    unread: bool,
    // The words as they were last read.
    seen: Vec<QuietWord>,
}

impl Quiet {
    /// An engine that is not quiet. All memory that it needs is allocated here.
    pub fn new(alloc: Global, node: usize, engines: usize) -> Result<Quiet, AllocError> {
        let seen = vec![in alloc; QuietWord::BUSY; engines]?;
        Ok(Quiet {
            node,
            changes: 0,
            quiet: false,
            unread: false,
            seen,
        })
    }

    /// Notes, before the engine reads its inbox, whether the last frames of an ended engine may be there. Until the
    /// inbox was found empty, the engine is not quiet. It says so on the board before its mark is removed, so that no
    /// earlier word remains then.
    pub fn look(&mut self, board: &Board) {
        if board.is_unread(self.node) {
            self.unread = true;
            self.write(board, false);
            board.look(self.node);
        }
    }

    /// Notes that the inbox was found empty, or won't be read any more.
    pub fn found_nothing(&mut self) {
        self.unread = false;
    }

    /// Notes whether the engine took a parcel that it could not log. If it took none, it reads its inbox no further until
    /// that parcel is logged, and waits no longer for the last frames of an ended engine.
    pub fn looked(&mut self, took: bool) {
        self.unread = self.unread && took;
    }

    /// Reports on the board whether the engine is quiet, if that changed.
    pub fn write(&mut self, board: &Board, quiet: bool) {
        let quiet = quiet && !self.unread;
        if quiet != self.quiet {
            self.changes = self.changes.wrapping_add(1);
            self.quiet = quiet;
            board.write(self.node, QuietWord::new(self.changes, quiet));
        }
    }

    /// Whether all jobs of the engine's clients have ended.
    pub fn jobs_ended(&self, board: &Board) -> bool {
        board.has_no_job(self.node)
    }

    /// Whether two readings in a row gave the same words, and each engine is quiet, or has ended and its last frames
    /// were put.
    pub fn may_stop(&mut self, board: &Board) -> bool {
        if !self.quiet {
            return false;
        }
        for engine in 0..self.seen.len() {
            let word = board.read(engine);
            if !word.is_quiet() {
                return false;
            }
            self.seen[engine] = word;
        }
        self.is_seen_again(board)
    }

    /// Reports that the engine has ended, and whether all were quiet then.
    pub fn end(&self, board: &Board, all_quiet: bool) {
        board.end(self.node, all_quiet);
    }

    fn is_seen_again(&self, board: &Board) -> bool {
        for engine in 0..self.seen.len() {
            if board.read(engine) != self.seen[engine] {
                return false;
            }
        }
        true
    }
}
