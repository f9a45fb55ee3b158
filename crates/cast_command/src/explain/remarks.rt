//! Remarks on an accepted script: lists that the command ignores, and a member that occurs twice.
use crate::explain::excerpt::quoted;
use crate::explain::keys::find_key_twice;
use cast_script::{Script, ScriptFault, read_script};
use std::alloc::{AllocError, Global};

/// What a command uses of a script.
#[derive(Clone, Copy)]
pub enum Taken {
    /// Its events, step by step; those from this place on are shown.
    Events { from: u64 },
    /// Its plan and jobs.
    Group,
}

/// What the command ignores of the script in these bytes, if that is worth mentioning.
pub fn aside_words(
    alloc: Global,
    bytes: &[u8],
    taken: Taken,
) -> Result<Option<String>, AllocError> {
    match read_script(alloc, bytes) {
        Ok(script) => match taken {
            Taken::Events { from } => no_events_words(alloc, &script, from),
            Taken::Group => events_words(alloc, &script),
        },
        Err(ScriptFault::Memory) => Err(AllocError),
        Err(_) => Ok(None),
    }
}

fn no_events_words(
    alloc: Global,
    script: &Script,
    from: u64,
) -> Result<Option<String>, AllocError> {
    let events = script.events.as_slice().len();
    let plan = script.plan.faults.as_slice().len();
    let jobs = script.jobs.as_slice().len();
    if events == 0 && (plan > 0 || jobs > 0) {
        let words = format!(in alloc;
            "there are no events: the plan ({plan}) and the jobs ({jobs}) are taken by live alone"
        )?;
        return Ok(Some(words));
    }
    if from > 0 && from >= events as u64 {
        let words = format!(in alloc;
            "there is no event {from} (counted from 0), as there are {events}: none is drawn"
        )?;
        return Ok(Some(words));
    }
    Ok(None)
}

fn events_words(alloc: Global, script: &Script) -> Result<Option<String>, AllocError> {
    let events = script.events.as_slice().len();
    if events == 0 {
        return Ok(None);
    }
    let words = format!(in alloc;
        "the events ({events}) are left aside: live takes the plan and the jobs, run and draw take events"
    )?;
    Ok(Some(words))
}

/// Which member of the object in these bytes occurs twice, if one does.
pub fn twice_words(alloc: Global, bytes: &[u8]) -> Result<Option<String>, AllocError> {
    match find_key_twice(alloc, bytes)? {
        Some(key) => {
            let shown = quoted(alloc, key)?;
            let words = format!(in alloc; "member {shown} stands twice: the last one holds")?;
            Ok(Some(words))
        }
        None => Ok(None),
    }
}
