//! Items of members, each in its member's place; the first one is member 1's.

ghost use Rattle.std.specs.Prelude.{◌≡◌, ◌≢◌, ◌≤◌, ℕ, All, IfOk, Some, None, length, map};
ghost use Rattle.ct_names.specs.declared.limit.TheConstants.{MAX_MEMBERS};
ghost use Rattle.ct_merge.specs.Expected.{nothing_expected};
ghost use Rattle.ct_merge.specs.Logs.{log_of};
ghost use Rattle.ct_merge.specs.Merging.{IsBare};
ghost use Rattle.ct_merge.specs.Proposers.{line_in};
ghost use Rattle.ct_logs.specs.Sets.{slot};

use ct_merge::{Expectations, LogLine};
use ct_names::{Group, MAX_MEMBERS, Member};
use std::alloc::{AllocError, Global};

// None of the members' logs has a file.
pub(crate) fn no_files(alloc: Global) -> Result<Vec<Option<usize>>, AllocError>
    ensures count { IfOk result (λ files. length files.items ≡ MAX_MEMBERS) }
    ensures none { IfOk result (λ files. All (λ file. file ≡ None) files.items) }
{
    let mut files = Vec::new(alloc);
    for i in 0..MAX_MEMBERS {
        // The invariant names it.
        let _ = i;
        files.push(None)?;
    }
    Ok(files)
}

// None of them has a line.
pub(crate) fn no_lines(alloc: Global) -> Result<Vec<Vec<LogLine>>, AllocError>
    ensures count { IfOk result (λ logs. length logs.items ≡ MAX_MEMBERS) }
    ensures bare { IfOk result (λ logs. All IsBare logs.items) }
{
    let mut logs = Vec::new(alloc);
    for i in 0..MAX_MEMBERS {
        let _ = i;
        logs.push(Vec::new(alloc))?;
    }
    Ok(logs)
}

pub(crate) fn no_places(alloc: Global) -> Result<Vec<Vec<usize>>, AllocError> {
    let mut places = Vec::new(alloc);
    for _ in 0..MAX_MEMBERS {
        places.push(Vec::new(alloc))?;
    }
    Ok(places)
}

// Nothing is expected of them.
pub(crate) fn no_expectations(alloc: Global) -> Result<Vec<Expectations>, AllocError>
    ensures count { IfOk result (λ expected. length expected.items ≡ MAX_MEMBERS) }
    ensures nothing { IfOk result (λ expected. All (λ e. e ≡ nothing_expected) expected.items) }
{
    let mut expected = Vec::new(alloc);
    for i in 0..MAX_MEMBERS {
        let _ = i;
        expected.push(Expectations::new(alloc))?;
    }
    Ok(expected)
}

// Puts the item in the member's place, where there is one.
pub(crate) fn put_at<T: Drop>(items: &mut Vec<T>, member: Member, item: T)
    ensures here { 1 ≤ member → member ≤ length items.old.items → slot items.new.items member ≡ Some item }
    ensures others { 1 ≤ member → (q : ℕ) → 1 ≤ q → q ≢ member → slot items.new.items q ≡ slot items.old.items q }
    ensures length { length items.new.items ≡ length items.old.items }
{
    if let Some(kept) = items.get_mut(usize::from(member).saturating_sub(1)) {
        *kept = item;
    }
}

// Puts the logs in their places, as far as there are places.
pub(crate) fn put_all(kept: &mut [Vec<LogLine>], logs: Vec<Vec<LogLine>>) {
    let mut at: usize = 0;
    for log in logs {
        if let Some(kept) = kept.get_mut(at) {
            *kept = log;
        }
        at = at.saturating_add(1);
    }
}

// Names the senders of proposals in the logs.
pub(crate) fn name_all(logs: &mut [Vec<LogLine>], group: Group)
    ensures { (p : ℕ) → log_of logs.new p ≡ map (line_in group) (log_of logs.old p) }
{
    for i in 0..logs.len() {
        name_log(&mut logs[i], group);
    }
}

// Names them in one log.
fn name_log(log: &mut Vec<LogLine>, group: Group)
    ensures { log.new.items ≡ map (line_in group) log.old.items }
{
    name_in(log, group);
}

fn name_in(log: &mut [LogLine], group: Group)
    ensures { log.new ≡ map (line_in group) log.old }
{
    for line in log.iter_mut() {
        line.name_sender(group);
    }
}
