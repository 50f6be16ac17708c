//! Logs that are followed.

ghost use Rattle.std.specs.Prelude.{IfOk};
ghost use Rattle.ct_merge.specs.Verdicts.{IfAccepted};
ghost use Rattle.ct_logs.specs.Merged.{IsSomeMerge, IsSomeRun, IsTextOfOne};

use crate::culprit::told_alone;
use crate::ending::{AcceptedRun, end_of};
use crate::form::Form;
use crate::growth::{add, end};
use crate::judged::Judged;
use crate::log_set::{LogSet, name_at, position_of};
use crate::merge_fault::MergeFault;
use crate::reading::{too_long, unread};
use crate::sources::Sources;
use crate::tail::{Parts, Tail};
use ct_merge::{Culprit, LogLine, Merger, StoppedLines, stopped};
use ct_names::Member;
use ct_streams::{FileChange, FileFault, Files, Pace, Source};
use ct_world::World;
use std::alloc::{AllocError, Global};
use std::mem;

// How many bytes of a log are read at a time.
const PIECE: usize = 65_536;

// Logs that are followed, each in the file of its place, and what is judged of them.
#[derive(Drop)]
struct Following<R: Source + Drop> {
    tails: Vec<Tail<R>>,
    set: LogSet,
    // A log gives the number of members, and has an act behind that.
    is_headed: bool,
    // None before the numbers of the group are settled.
    merger: Option<Merger>,
}

// What logs came to that ended, and their texts.
#[derive(Drop)]
struct Ended {
    judged: Judged,
    texts: Vec<Vec<u8>>,
}

// What came of logs, in bytes and lines; or a line that is refused.
#[derive(Drop)]
enum Look {
    Came(usize, usize),
    Refused(Culprit),
}

// What the logs in the files of these names come to that are followed.
pub(crate) fn followed<F: Files, P: Pace + Drop>(
    alloc: Global,
    files: &F,
    names: &[&str],
    form: Form,
    pace: P,
) -> Result<AcceptedRun, MergeFault>
    ensures { IfOk result (λ run. IsTextOfOne IsSomeRun form run.text.items) }
{
    let mut pace = pace;
    let mut following = opened(alloc, files, names)?;
    match following.follow(alloc, names, &mut pace) {
        Ok(ended) => following.end(alloc, names, ended, form),
        Err(fault) => {
            drop(following);
            Err(fault)
        }
    }
}

// The logs in the files of these names, of which nothing is read yet.
fn opened<F: Files>(
    alloc: Global,
    files: &F,
    names: &[&str],
) -> Result<Following<F::Reader>, MergeFault> {
    let set = LogSet::new(alloc)?;
    let mut tails = Vec::new(alloc);
    match open_all(alloc, files, names, &mut tails) {
        Ok(()) => Ok(Following {
            tails,
            set,
            is_headed: false,
            merger: None,
        }),
        Err(fault) => {
            drop(tails);
            drop(set);
            Err(fault)
        }
    }
}

fn open_all<F: Files>(
    alloc: Global,
    files: &F,
    names: &[&str],
    tails: &mut Vec<Tail<F::Reader>>,
) -> Result<(), MergeFault> {
    for (file, name) in names.iter().enumerate() {
        let tail = open(alloc, files, name, file)?;
        if tails.push(tail).is_err() {
            return Err(MergeFault::Memory);
        }
    }
    Ok(())
}

// The file of this name is another now.
fn changed(alloc: Global, name: &str, change: FileChange) -> MergeFault {
    let told = change.told();
    match format!(in alloc; "{name}: {told}") {
        Ok(text) => MergeFault::Changed(text),
        Err(_) => MergeFault::Memory,
    }
}

// The log in the file of this name, at this place among the files.
fn open<F: Files>(
    alloc: Global,
    files: &F,
    name: &str,
    file: usize,
) -> Result<Tail<F::Reader>, MergeFault> {
    let position = position_of(alloc, name, file)?;
    match files.open(name) {
        Ok(reader) => Ok(Tail::new(alloc, position, reader)),
        Err(fault) => Err(unread(alloc, name, fault)),
    }
}

impl<R: Source + Drop> Following<R> {
    // What the logs come to that are followed to their ends; or why none is read on.
    fn follow<P: Pace>(
        &mut self,
        alloc: Global,
        names: &[&str],
        pace: &mut P,
    ) -> Result<Ended, MergeFault>
        ensures { IfOk result (λ ended. IfAccepted ended.judged.verdict IsSomeMerge) }
    {
        match self.watch(alloc, names, pace)? {
            None => self.ended(alloc, names),
            Some(culprit) => {
                let fault = self.refuse(alloc, names, &culprit);
                drop(culprit);
                Err(fault)
            }
        }
    }

    // Looks at the logs for as long as the pace says, unless all end with a crash; a line that is refused before.
    fn watch<P: Pace>(
        &mut self,
        alloc: Global,
        names: &[&str],
        pace: &mut P,
    ) -> Result<Option<Culprit>, MergeFault> {
        let mut piece = vec![in alloc; 0u8; PIECE]?;
        self.watch_by(alloc, names, pace, &mut piece)
    }

    // The same, with a piece of each log read at a time.
    fn watch_by<P: Pace>(
        &mut self,
        alloc: Global,
        names: &[&str],
        pace: &mut P,
        piece: &mut [u8],
    ) -> Result<Option<Culprit>, MergeFault> {
        for _ in 0..u64::MAX {
            match self.look(alloc, names, piece)? {
                Look::Refused(culprit) => return Ok(Some(culprit)),
                Look::Came(bytes, lines) => {
                    if self.is_over() || !self.goes_on(alloc, names, pace, bytes, lines)? {
                        return Ok(None);
                    }
                }
            }
        }
        Ok(None)
    }

    // Whether to look again, as so many bytes and lines came: by the pace, unless a file is another now.
    fn goes_on<P: Pace>(
        &self,
        alloc: Global,
        names: &[&str],
        pace: &mut P,
        bytes: usize,
        lines: usize,
    ) -> Result<bool, MergeFault> {
        if bytes == 0 {
            for (file, tail) in self.tails.iter().enumerate() {
                let name = name_at(names, file);
                if let Some(change) = pace.change(file, name, tail.count()) {
                    return Err(changed(alloc, name, change));
                }
            }
        }
        Ok(pace.goes_on(bytes, lines))
    }

    // Reads what came of each log, and takes lines that can be taken.
    fn look(
        &mut self,
        alloc: Global,
        names: &[&str],
        piece: &mut [u8],
    ) -> Result<Look, MergeFault> {
        let mut bytes: usize = 0;
        let mut lines: usize = 0;
        for file in 0..self.tails.len() {
            let count = self.read(alloc, name_at(names, file), file, piece)?;
            if count > 0 {
                bytes = bytes.saturating_add(count);
                lines = lines.saturating_add(self.take(alloc, names, file)?);
            }
        }
        match self.judge(alloc, names)? {
            Some(culprit) => Ok(Look::Refused(culprit)),
            None => Ok(Look::Came(bytes, lines)),
        }
    }

    // Reads some bytes of the file of this name and place. How many came.
    fn read(
        &mut self,
        alloc: Global,
        name: &str,
        file: usize,
        piece: &mut [u8],
    ) -> Result<usize, MergeFault> {
        let Some(tail) = self.tails.get_mut(file) else {
            return Ok(0);
        };
        let Ok(count) = tail.read(piece) else {
            return Err(unread(alloc, name, FileFault::Read));
        };
        if tail.add(&piece[..count])? {
            Ok(count)
        } else {
            Err(too_long(alloc, name))
        }
    }

    // Takes the lines that came in the file of this place. How many.
    fn take(&mut self, alloc: Global, names: &[&str], file: usize) -> Result<usize, MergeFault> {
        let name = name_at(names, file);
        let Some(tail) = self.tails.get_mut(file) else {
            return Ok(0);
        };
        let mut parts = tail.take(alloc, name)?;
        let taken = self.take_parts(alloc, names, file, &mut parts);
        drop(parts);
        taken
    }

    // Takes what was read of the log in the file of this place.
    fn take_parts(
        &mut self,
        alloc: Global,
        names: &[&str],
        file: usize,
        parts: &mut Parts,
    ) -> Result<usize, MergeFault> {
        match self.belongs(alloc, names, file, parts)? {
            Some(member) => self.add_parts(alloc, member, parts),
            None => Ok(0),
        }
    }

    // Whose log it is, where its acts say that.
    fn belongs(
        &mut self,
        alloc: Global,
        names: &[&str],
        file: usize,
        parts: &Parts,
    ) -> Result<Option<Member>, MergeFault> {
        let name = name_at(names, file);
        self.set.number_group(alloc, name, parts.numbers)?;
        let Some(member) = parts.member else {
            return Ok(None);
        };
        self.is_headed = self.is_headed || parts.numbers.members.is_some();
        self.set.claim(alloc, name, file, member)?;
        if self.merger.is_some() {
            self.set.setup(alloc, names)?;
        }
        Ok(Some(member))
    }

    // The member's log goes on with what came. How many lines.
    fn add_parts(
        &mut self,
        alloc: Global,
        member: Member,
        parts: &mut Parts,
    ) -> Result<usize, MergeFault> {
        self.set.add_places(member, &parts.places)?;
        let lines = mem::replace(&mut parts.lines, Vec::new(alloc));
        self.add(member, lines)?;
        Ok(parts.places.len())
    }

    // The member's log goes on with these lines.
    fn add(&mut self, member: Member, lines: Vec<LogLine>) -> Result<(), AllocError> {
        match &mut self.merger {
            Some(merger) => add(merger, member, lines),
            None => self.set.add_lines(member, lines),
        }
    }

    // Takes lines that can be taken, once the numbers of the group are settled; a line that is refused.
    fn judge(&mut self, alloc: Global, names: &[&str]) -> Result<Option<Culprit>, MergeFault> {
        let merger = match self.merger.take() {
            Some(merger) => merger,
            None if self.is_headed => self.settle(alloc, names)?,
            None => return Ok(None),
        };
        match merger.go_on()? {
            Ok(merger) => {
                drop(mem::replace(&mut self.merger, Some(merger)));
                Ok(None)
            }
            Err((culprit, logs)) => {
                self.set.put_logs(logs);
                Ok(Some(culprit))
            }
        }
    }

    // The group, by the numbers that logs give so far, with the lines that are read.
    fn settle(&mut self, alloc: Global, names: &[&str]) -> Result<Merger, MergeFault> {
        let setup = self.set.setup(alloc, names)?;
        let same = setup;
        self.set.settle(same);
        self.set.name_senders(same.group);
        let logs = self.set.take_logs(alloc, same.group.n())?;
        Ok(Merger::with_logs(alloc, setup, logs)?)
    }

    // Whether each log ends with a crash.
    fn is_over(&self) -> bool {
        !self.tails.is_empty() && self.tails.iter().all(|tail| tail.is_crashed)
    }

    // What is written and told of logs that ended so.
    fn end(
        self,
        alloc: Global,
        names: &[&str],
        ended: Ended,
        form: Form,
    ) -> Result<AcceptedRun, MergeFault>
        requires { IfAccepted ended.judged.verdict IsSomeMerge }
        ensures { IfOk result (λ run. IsTextOfOne IsSomeRun form run.text.items) }
    {
        let Ended { judged, texts } = ended;
        let Following {
            tails,
            set,
            is_headed: _,
            merger,
        } = self;
        drop(tails);
        drop(merger);
        end_of(alloc, names, texts, set, judged, form)
    }

    // What the logs come to that end here, and their texts.
    fn ended(&mut self, alloc: Global, names: &[&str]) -> Result<Ended, MergeFault>
        ensures { IfOk result (λ ended. IfAccepted ended.judged.verdict IsSomeMerge) }
    {
        let merger = self.last_merger(alloc, names)?;
        self.put_expected(alloc);
        let judged = end(alloc, merger, &mut self.set)?;
        match texts_of(alloc, &mut self.tails) {
            Ok(texts) => Ok(Ended { judged, texts }),
            Err(_) => {
                drop(judged);
                Err(MergeFault::Memory)
            }
        }
    }

    // The group, of which each log is a member's; by the numbers that logs give, where they were not settled.
    fn last_merger(&mut self, alloc: Global, names: &[&str]) -> Result<Merger, MergeFault> {
        self.claim_rest(alloc, names)?;
        self.set.setup(alloc, names)?;
        match self.merger.take() {
            Some(merger) => Ok(merger),
            None => self.settle(alloc, names),
        }
    }

    // Puts what each log expects of its member in its place.
    fn put_expected(&mut self, alloc: Global) {
        for file in 0..self.tails.len() {
            if let Some(tail) = self.tails.get_mut(file) {
                let member = tail.member.unwrap_or(tail.position);
                self.set.put_expected(member, tail.take_expected(alloc));
            }
        }
    }

    // Logs that name no member are those of the members at whose places they stand.
    fn claim_rest(&mut self, alloc: Global, names: &[&str]) -> Result<(), MergeFault> {
        for (file, tail) in self.tails.iter().enumerate() {
            let member = tail.member.unwrap_or(tail.position);
            self.set.claim(alloc, name_at(names, file), file, member)?;
        }
        Ok(())
    }

    // The logs are refused at this line.
    fn refuse(&mut self, alloc: Global, names: &[&str], culprit: &Culprit) -> MergeFault {
        match self.stopped(alloc, names) {
            Ok(stopped) => {
                let told = self.told_of(alloc, names, culprit, &stopped.run);
                drop(stopped);
                match told {
                    Ok(text) if culprit.why.is_limit() => MergeFault::Limit(text),
                    Ok(text) => MergeFault::Refused(text),
                    Err(_) => MergeFault::Memory,
                }
            }
            Err(fault) => fault,
        }
    }

    // Where the logs stand that the set has.
    fn stopped(&self, alloc: Global, names: &[&str]) -> Result<StoppedLines, MergeFault> {
        let setup = self.set.setup(alloc, names)?;
        let same = setup;
        Ok(stopped(alloc, setup, self.set.logs(same.group.n()))?)
    }

    // What is told of this line; what others sent is looked up in the run.
    fn told_of(
        &mut self,
        alloc: Global,
        names: &[&str],
        culprit: &Culprit,
        run: &World,
    ) -> Result<String, AllocError> {
        let texts = texts_of(alloc, &mut self.tails)?;
        let sources = Sources {
            names,
            texts: &texts,
            set: &self.set,
        };
        let told = told_alone(alloc, sources, culprit, run);
        drop(texts);
        told
    }
}

// The texts of the logs, which these have no more.
fn texts_of<R: Source + Drop>(
    alloc: Global,
    tails: &mut Vec<Tail<R>>,
) -> Result<Vec<Vec<u8>>, AllocError> {
    let mut texts = Vec::new(alloc);
    match push_texts(alloc, tails, &mut texts) {
        Ok(()) => Ok(texts),
        Err(_) => {
            drop(texts);
            Err(AllocError)
        }
    }
}

fn push_texts<R: Source + Drop>(
    alloc: Global,
    tails: &mut Vec<Tail<R>>,
    texts: &mut Vec<Vec<u8>>,
) -> Result<(), AllocError> {
    for file in 0..tails.len() {
        if let Some(tail) = tails.get_mut(file) {
            if texts.push(tail.take_text(alloc)).is_err() {
                return Err(AllocError);
            }
        }
    }
    Ok(())
}
