//! The judge, for a whole record or for its pieces.
ghost use Rattle.std.specs.Prelude.{◌≡◌, ◌<◌, ◌⊎◌, [], None, true, length, is_some, IfSome, IsSomeAnd};
ghost use Rattle.cast_record.specs.Verdicts.{verdict};
ghost use Rattle.cast_record.specs.declared.verdict.Verdict.TheVariants.{Good, Bad};
ghost use Rattle.cast_judge.specs.FitLines.{BeginsWell};
ghost use Rattle.cast_judge.specs.Judged.{Stands, is_reading};
ghost use Rattle.cast_c.specs.Numbers.{Tells};
ghost use Rattle.cast_c.specs.Pieces.{IsDone, IsFed, IsSoFar};

use crate::judge_handle::JudgeHandle;
use crate::numbers::{VerdictNumbers, status_of};
use crate::status::{BAD, DONE, MISUSED, OUT_OF_MEMORY, REFUSED};
use cast_judge::{Judging, Offence, Verdict, judge};
use std::alloc::{AllocError, Global};

/// The verdict on a record. 0: good; 3: bad; 5: out of memory.
#[unsafe(no_mangle)]
pub extern "C" fn cast_c_judge(alloc: Global, text: &[u8], said: &mut VerdictNumbers) -> u32
    ensures good { result ≡ 0 → verdict text.now ≡ Good }
    ensures bad { result ≡ 3 → verdict text.now ≡ Bad said.new.line said.new.rule }
    ensures memory { result ≡ 5 → (0 < length text.now) × BeginsWell [] text.now }
    ensures status { (result ≡ 0) ⊎ (result ≡ 3) ⊎ (result ≡ 5) }
{
    tell(judge(alloc, text), said)
}

// Writes a verdict, and returns its status.
fn tell(judged: Result<Verdict, AllocError>, said: &mut VerdictNumbers) -> u32
    ensures told { Tells judged result said.new }
{
    match judged {
        Ok(verdict) => {
            *said = VerdictNumbers::of(verdict);
            status_of(verdict)
        }
        Err(_) => OUT_OF_MEMORY,
    }
}

/// Makes a judge that got nothing yet. 0: done; 1: the handle holds one already; 5: out of memory.
#[unsafe(no_mangle)]
pub extern "C" fn cast_c_judge_new(alloc: Global, judge: &mut JudgeHandle) -> u32
    ensures made { result ≡ 0 → IsSomeAnd judge.new.loose.judging
        (λ made. Stands [] made × (is_reading made ≡ true) × (made.fed ≡ 0)) }
    ensures held { result ≡ 1 → is_some judge.old.loose.judging ≡ true }
    ensures kept { (result ≡ 0) ⊎ (judge.new ≡ judge.old) }
    ensures status { (result ≡ 0) ⊎ (result ≡ 1) ⊎ (result ≡ 5) }
{
    if judge.is_held() {
        return MISUSED;
    }
    match Box::new(alloc, Judging::new(alloc)) {
        Ok(made) => {
            *judge = JudgeHandle::of(made);
            DONE
        }
        Err(_) => OUT_OF_MEMORY,
    }
}

/// Takes the next piece of a record. 0: done; 1: the handle holds no judge; 2: the pieces would reach 2^63 bytes; 5:
/// out of memory, and so is each later piece.
#[unsafe(no_mangle)]
pub extern "C" fn cast_c_judge_feed(alloc: Global, judge: &mut JudgeHandle, piece: &[u8]) -> u32
    ensures fed { IfSome judge.old.loose.judging (λ old.
        IsSomeAnd judge.new.loose.judging (IsFed old piece.now result)) }
    ensures none { judge.old.loose.judging ≡ None → (result ≡ 1) × (judge.new.loose.judging ≡ None) }
{
    let Some(mut held) = judge.take(alloc) else {
        return MISUSED;
    };
    let status = feed(&mut held, piece);
    *judge = JudgeHandle::of(held);
    status
}

fn feed(judging: &mut Judging, piece: &[u8]) -> u32
    ensures { IsFed judging.old piece.now result judging.new }
{
    if piece.len() as u64 >= judging.room() {
        return REFUSED;
    }
    match judging.feed(piece) {
        Ok(()) => DONE,
        Err(_) => OUT_OF_MEMORY,
    }
}

/// What was found in the pieces so far, and how many lines broke no rule. 0: nothing; 1: the handle holds no judge; 3: a
/// line offends, whatever follows; 5: a piece ran out of memory.
#[unsafe(no_mangle)]
pub extern "C" fn cast_c_judge_so_far(
    alloc: Global,
    judge: &mut JudgeHandle,
    lines: &mut u64,
    said: &mut VerdictNumbers,
) -> u32
    ensures found { IfSome judge.old.loose.judging (λ held. IsSoFar held result lines.new said.new) }
    ensures none { judge.old.loose.judging ≡ None → result ≡ 1 }
    ensures kept { judge.new.loose.judging ≡ judge.old.loose.judging }
{
    let Some(held) = judge.take(alloc) else {
        return MISUSED;
    };
    *lines = held.lines();
    let status = tell_so_far(&held, said);
    *judge = JudgeHandle::of(held);
    status
}

fn tell_so_far(judging: &Judging, said: &mut VerdictNumbers) -> u32
    ensures { IsSoFar judging.now result judging.now.lines said.new }
{
    match judging.so_far() {
        Ok(None) => DONE,
        Ok(Some(Offence { line, rule })) => {
            *said = VerdictNumbers { line, rule };
            BAD
        }
        Err(_) => OUT_OF_MEMORY,
    }
}

/// The verdict on all pieces joined; afterwards the handle is empty. 0: good; 1: it held no judge; 3: bad; 5: a piece
/// ran out of memory.
#[unsafe(no_mangle)]
pub extern "C" fn cast_c_judge_finish(
    alloc: Global,
    judge: &mut JudgeHandle,
    said: &mut VerdictNumbers,
) -> u32
    ensures done { IfSome judge.old.loose.judging (λ old. IsDone old result said.new) }
    ensures none { judge.old.loose.judging ≡ None → result ≡ 1 }
    ensures ended { judge.new.loose.judging ≡ None }
{
    match judge.take(alloc) {
        Some(held) => finish(Box::into_inner(held), said),
        None => MISUSED,
    }
}

fn finish(judging: Judging, said: &mut VerdictNumbers) -> u32
    ensures { IsDone judging result said.new }
{
    tell(judging.finish(), said)
}

/// Drops the judge, if the handle holds one.
#[unsafe(no_mangle)]
pub extern "C" fn cast_c_judge_drop(alloc: Global, judge: &mut JudgeHandle)
    ensures { judge.new.loose.judging ≡ None }
{
    let _gone = judge.take(alloc);
}
