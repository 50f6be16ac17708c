//! The logs of a group.

ghost use Rattle.std.specs.Prelude.{◌≡◌, ◌≢◌, ◌≤◌, ℕ, IfErr, IfOk, IfSome, OnOk, Some, None, length, map, take, true, false, ◌+◌, ◌<◌};
ghost use Rattle.ct_names.specs.declared.limit.TheConstants.{MAX_MEMBERS};
ghost use Rattle.ct_merge.specs.Expected.{expected_of};
ghost use Rattle.ct_merge.specs.Logs.{log_of};
ghost use Rattle.ct_merge.specs.Proposers.{line_in};
ghost use Rattle.ct_logs.specs.Files.{texts_of};
ghost use Rattle.ct_logs.specs.Groups.{AreNoLogs};
ghost use Rattle.ct_logs.specs.Silence.{IsNoLogs};
ghost use Rattle.ct_logs.specs.Owners.{Said, said_in, said_of};
ghost use Rattle.ct_logs.specs.Sets.{AreJoined, CanTake, Claims, HasTaken, IsBare, IsFiled, IsOpen, IsSetupOf, Takes, file_in, slot};

use crate::group_numbers::GroupNumbers;
use crate::log_reading::read_log;
use crate::merge_fault::MergeFault;
use crate::places::{name_all, no_expectations, no_files, no_lines, no_places, put_all, put_at};
use ct_merge::{Expectations, LogLine, LogText, Numbers};
use ct_names::{Group, MAX_MEMBERS, Member};
use ct_world::Setup;
use std::alloc::{AllocError, Global};
use std::marker::Model;
use std::mem;

// The logs of members, each in its member's place.
#[derive(Drop)]
pub(crate) struct LogSet {
    numbers: GroupNumbers,
    // The last member that has a log.
    last: Member,
    // Of each member the place of its log's file; None where it has none.
    files: Vec<Option<usize>>,
    logs: Vec<Vec<LogLine>>,
    // Of each line of a log its number in the file.
    places: Vec<Vec<usize>>,
    // What each log expects of its member.
    expected: Vec<Expectations>,
}

// Contracts see all but the numbers of lines.
impl Model for LogSet {
    ghost use Rattle.std.specs.Prelude.{◌≡◌, length};
    ghost use Rattle.ct_names.specs.declared.limit.TheConstants.{MAX_MEMBERS};
    ghost use Rattle.ct_logs.specs.Sets.{LogsSoFar};

    ghost Value = { LogsSoFar };

    ghost view = { λ s. record {
      numbers = s.numbers;
      last = s.last;
      files = s.files.items;
      logs = s.logs.items;
      expected = s.expected.items;
    } };

    ghost invariant = { λ s. (length s.files.items ≡ MAX_MEMBERS) × (length s.logs.items ≡ MAX_MEMBERS)
        × (length s.expected.items ≡ MAX_MEMBERS) };
}

impl LogSet {
    // The logs that the files of these names and texts have.
    pub(crate) fn read(
        alloc: Global,
        names: &[&str],
        texts: &[Vec<u8>],
    ) -> Result<LogSet, MergeFault>
        ensures ok { IfOk result (HasTaken (texts_of texts.now) (length texts.now)) }
        ensures fault { IfErr result (IsNoLogs (AreNoLogs (texts_of texts.now))) }
    {
        let mut set = LogSet::new(alloc)?;
        match set.take_all(alloc, names, texts) {
            Ok(()) => Ok(set),
            Err(fault) => {
                drop(set);
                Err(fault)
            }
        }
    }

    // Takes each text as the log in the file of its place.
    fn take_all(
        &mut self,
        alloc: Global,
        names: &[&str],
        texts: &[Vec<u8>],
    ) -> Result<(), MergeFault>
        requires { HasTaken (texts_of texts.now) 0 self.old }
        ensures ok { OnOk result (HasTaken (texts_of texts.now) (length texts.now) self.new) }
        ensures fault { IfErr result (IsNoLogs (AreNoLogs (texts_of texts.now))) }
    {
        for (i, text) in texts.iter().enumerate() {
            match self.take(alloc, name_at(names, i), i, text) {
                Ok(()) => {}
                Err(fault) => return Err(fault),
            }
        }
        Ok(())
    }

    // No log.
    pub(crate) fn new(alloc: Global) -> Result<LogSet, AllocError>
        ensures numbers { IfOk result (λ s. s.numbers ≡ record { members = None; cells = None; batch = None }) }
        ensures last { IfOk result (λ s. s.last ≡ 1) }
        ensures files { IfOk result (λ s. (p i : ℕ) → IsFiled s p i → ⊥) }
        ensures bare { IfOk result (λ s. (p : ℕ) → IsBare s p) }
    {
        let files = no_files(alloc)?;
        let logs = no_lines(alloc)?;
        let places = no_places(alloc)?;
        let expected = no_expectations(alloc)?;
        Ok(LogSet {
            numbers: GroupNumbers::new(),
            last: 1,
            files,
            logs,
            places,
            expected,
        })
    }

    // The logs of the first n members.
    pub(crate) fn logs(&self, n: u8) -> &[Vec<LogLine>]
        ensures { result.now ≡ take n self.now.logs }
    {
        match self.logs.get(..usize::from(n)) {
            Some(logs) => logs,
            None => &self.logs,
        }
    }

    // What the logs of the first n members expect of them.
    pub(crate) fn expected(&self, n: u8) -> &[Expectations]
        ensures { result.now ≡ take n self.now.expected }
    {
        match self.expected.get(..usize::from(n)) {
            Some(expected) => expected,
            None => &self.expected,
        }
    }

    // The line at this place of the member's log.
    pub(crate) fn line(&self, member: Member, place: usize) -> Option<&LogLine> {
        let at = usize::from(member).checked_sub(1)?;
        self.logs.get(at)?.get(place)
    }

    // The place of the file of the member's log.
    pub(crate) fn file(&self, member: Member) -> Option<usize>
        ensures { 1 ≤ member → result ≡ file_in (slot self.now.files member) }
    {
        let place = usize::from(member).checked_sub(1)?;
        self.files.get(place).copied()?
    }

    // How many lines were read of the log at this place.
    pub(crate) fn count(&self, place: usize) -> usize {
        match self.places.get(place) {
            Some(places) => places.len(),
            None => 0,
        }
    }

    // The number in the file of the line at this place of the member's log.
    pub(crate) fn number(&self, member: Member, place: usize) -> Option<usize> {
        let at = usize::from(member).checked_sub(1)?;
        self.places.get(at)?.get(place).copied()
    }

    // Takes the text as the log in the file of this name, at this place among the files.
    fn take(
        &mut self,
        alloc: Global,
        name: &str,
        file: usize,
        text: &[u8],
    ) -> Result<(), MergeFault>
        ensures ok { OnOk result ((said : Said) × (said_in file text.now ≡ Some said) × Takes self.old file said self.new) }
        ensures fault { IfErr result (IsNoLogs ((said : Said) → said_in file text.now ≡ Some said → CanTake self.old file said → ⊥)) }
    {
        let position = position_of(alloc, name, file)?;
        let mut log = match read_log(alloc, name, position, text) {
            Ok(log) => log,
            Err(fault) => return Err(fault),
        };
        let taken = self.take_log(alloc, name, file, position, &mut log);
        drop(log);
        taken
    }

    // Takes the log in the file of this name, at this place among the files; the member's where its acts don't say whose it is.
    fn take_log(
        &mut self,
        alloc: Global,
        name: &str,
        file: usize,
        position: Member,
        log: &mut LogText,
    ) -> Result<(), MergeFault>
        requires { file < MAX_MEMBERS }
        ensures ok { OnOk result (Takes self.old file (said_of position log.old) self.new) }
        ensures fault { IfErr result (IsNoLogs (CanTake self.old file (said_of position log.old) → ⊥)) }
    {
        let (member, numbers, lines, places) = log.take_parts(alloc);
        let member = member.unwrap_or(position);
        match self.claim_numbered(alloc, name, file, member, numbers) {
            Ok(()) => {
                self.put(member, lines, places);
                self.put_expected(member, log.take_expected(alloc));
                Ok(())
            }
            Err(fault) => {
                drop(lines);
                drop(places);
                Err(fault)
            }
        }
    }

    // The log in the file of this name, at this place among the files, is the member's and gives these numbers of the group.
    fn claim_numbered(
        &mut self,
        alloc: Global,
        name: &str,
        file: usize,
        member: Member,
        numbers: Numbers,
    ) -> Result<(), MergeFault>
        ensures ok { OnOk result (Claims self.old file member self.new) }
        ensures numbers { OnOk result (AreJoined self.old.numbers numbers self.new.numbers) }
        ensures rest { self.new ≡ record self.old { numbers = self.new.numbers; last = self.new.last; files = self.new.files } }
        ensures fault { IfErr result (IsNoLogs ((new : GroupNumbers) → AreJoined self.old.numbers numbers new →
            IsOpen self.old.files file member → ⊥)) }
    {
        self.number_group(alloc, name, numbers)?;
        self.claim(alloc, name, file, member)
    }

    // Takes the numbers of the group that the log in the file of this name gives.
    pub(crate) fn number_group(
        &mut self,
        alloc: Global,
        name: &str,
        numbers: Numbers,
    ) -> Result<(), MergeFault>
        ensures ok { OnOk result (AreJoined self.old.numbers numbers self.new.numbers) }
        ensures rest { self.new ≡ record self.old { numbers = self.new.numbers } }
        ensures fault { IfErr result (IsNoLogs ((new : GroupNumbers) → AreJoined self.old.numbers numbers new → ⊥)) }
    {
        self.numbers = self.numbers.with(alloc, name, numbers)?;
        Ok(())
    }

    // The log in the file of this name, at this place among the files, is the member's, unless another file has that.
    pub(crate) fn claim(
        &mut self,
        alloc: Global,
        name: &str,
        file: usize,
        member: Member,
    ) -> Result<(), MergeFault>
        ensures ok { OnOk result (Claims self.old file member self.new) }
        ensures rest { self.new ≡ record self.old { last = self.new.last; files = self.new.files } }
        ensures fault { IfErr result (IsNoLogs (IsOpen self.old.files file member → ⊥)) }
    {
        if member < 1 || MAX_MEMBERS < member {
            let told = format!(in alloc;
                "{name}: member {member}'s log, and members are 1 to {MAX_MEMBERS}"
            )?;
            return Err(MergeFault::NoLogs(told));
        }
        if self.is_elsewhere(file, member) {
            let told = format!(in alloc;
                "{name}: member {member}'s log, as a file before it; one that names no member is read as that of its place"
            )?;
            return Err(MergeFault::NoLogs(told));
        }
        self.last = self.last.max(member);
        put_at(&mut self.files, member, Some(file));
        Ok(())
    }

    // Whether the member's log is in another file than the one at this place.
    fn is_elsewhere(&self, file: usize, member: Member) -> bool
        requires { 1 ≤ member }
        ensures yes { result ≡ true → ((other : ℕ) → slot self.now.files member ≡ Some (Some other) → other ≡ file) → ⊥ }
        ensures no { result ≡ false → (other : ℕ) → slot self.now.files member ≡ Some (Some other) → other ≡ file }
    {
        match self.file(member) {
            Some(other) => other != file,
            None => false,
        }
    }

    // Puts the member's log in its place.
    fn put(&mut self, member: Member, lines: Vec<LogLine>, places: Vec<usize>)
        ensures here { 1 ≤ member → member ≤ MAX_MEMBERS → log_of self.new.logs member ≡ lines.items }
        ensures others { 1 ≤ member → (q : ℕ) → 1 ≤ q → q ≢ member → log_of self.new.logs q ≡ log_of self.old.logs q }
        ensures rest { self.new ≡ record self.old { logs = self.new.logs } }
    {
        put_at(&mut self.logs, member, lines);
        put_at(&mut self.places, member, places);
    }

    // Puts the logs in their places, member 1's first.
    pub(crate) fn put_logs(&mut self, logs: Vec<Vec<LogLine>>)
        ensures { self.new ≡ record self.old { logs = self.new.logs } }
    {
        put_all(&mut self.logs, logs);
    }

    // Puts what the member's log expects in its place.
    pub(crate) fn put_expected(&mut self, member: Member, expected: Expectations)
        ensures here { 1 ≤ member → member ≤ MAX_MEMBERS → expected_of self.new.expected member ≡ expected.list }
        ensures others { 1 ≤ member → (q : ℕ) → 1 ≤ q → q ≢ member → expected_of self.new.expected q ≡ expected_of self.old.expected q }
        ensures rest { self.new ≡ record self.old { expected = self.new.expected } }
    {
        put_at(&mut self.expected, member, expected);
    }

    // The member's log goes on with lines that have these numbers in its file.
    pub(crate) fn add_places(
        &mut self,
        member: Member,
        places: &[usize],
    ) -> Result<(), AllocError> {
        let at = usize::from(member).saturating_sub(1);
        match self.places.get_mut(at) {
            Some(kept) => Ok(kept.extend_from_slice(places)?),
            None => Ok(()),
        }
    }

    // The member's log goes on with these lines.
    pub(crate) fn add_lines(
        &mut self,
        member: Member,
        lines: Vec<LogLine>,
    ) -> Result<(), AllocError> {
        let at = usize::from(member).saturating_sub(1);
        let Some(kept) = self.logs.get_mut(at) else {
            return Ok(());
        };
        for line in lines {
            if kept.push(line).is_err() {
                return Err(AllocError);
            }
        }
        Ok(())
    }

    // The logs of the first n members, which have no lines from here on.
    pub(crate) fn take_logs(
        &mut self,
        alloc: Global,
        n: u8,
    ) -> Result<Vec<Vec<LogLine>>, AllocError>
        requires { n ≤ MAX_MEMBERS }
        ensures logs { IfOk result (λ logs. logs.items ≡ take n self.old.logs) }
        ensures count { IfOk result (λ logs. length logs.items ≡ n) }
        ensures rest { self.new ≡ record self.old { logs = self.new.logs } }
    {
        let bare = no_lines(alloc)?;
        let mut logs = mem::replace(&mut self.logs, bare);
        logs.truncate(usize::from(n));
        Ok(logs)
    }

    // Names the senders of proposals that are named without, as it is in this group.
    pub(crate) fn name_senders(&mut self, group: Group)
        ensures lines { (p : ℕ) → log_of self.new.logs p ≡ map (line_in group) (log_of self.old.logs p) }
        ensures rest { self.new ≡ record self.old { logs = self.new.logs } }
    {
        name_all(&mut self.logs, group);
    }

    // The numbers of the group are settled: those that no log gives are the usual ones.
    pub(crate) fn settle(&mut self, setup: Setup) {
        self.numbers = GroupNumbers::of(setup);
    }

    // What a world of the group is made with, where the logs are of its members.
    pub(crate) fn setup(&self, alloc: Global, names: &[&str]) -> Result<Setup, MergeFault>
        ensures ok { IfOk result (IsSetupOf self.now) }
        ensures fault { IfErr result (IsNoLogs ((setup : Setup) → IsSetupOf self.now setup → ⊥)) }
    {
        let Some(setup) = self.numbers.setup(self.last) else {
            return Err(MergeFault::NoLogs(String::from_str(alloc, "no logs")?));
        };
        let (last, n) = (self.last, setup.group.n());
        if last > n {
            let name = name_at(names, self.file(last).unwrap_or(0));
            let told = format!(in alloc; "{name}: member {last}'s log, and members are 1 to {n}")?;
            return Err(MergeFault::NoLogs(told));
        }
        Ok(setup)
    }
}

// The member whose log the file at this place is, where its lines don't say whose it is.
pub(crate) fn position_of(alloc: Global, name: &str, file: usize) -> Result<Member, MergeFault>
    ensures ok { IfOk result (λ member. member ≡ file + 1) }
    ensures few { OnOk result (file < MAX_MEMBERS) }
    ensures fault { IfErr result (IsNoLogs (MAX_MEMBERS ≤ file)) }
{
    match member_at(file) {
        Some(member) => Ok(member),
        None => {
            let told = format!(in alloc; "{name}: a group has no more than {MAX_MEMBERS} members")?;
            Err(MergeFault::NoLogs(told))
        }
    }
}

// The member of this place, where there is one.
fn member_at(place: usize) -> Option<Member>
    ensures some { IfSome result (λ member. member ≡ place + 1) }
    ensures few { IfSome result (λ member. place < MAX_MEMBERS) }
    ensures none { result ≡ None → MAX_MEMBERS ≤ place }
{
    if place < usize::from(MAX_MEMBERS) {
        Some((place as u8).saturating_add(1))
    } else {
        None
    }
}

// The name at this place.
pub(crate) fn name_at<'a>(names: &[&'a str], place: usize) -> &'a str {
    match names.get(place) {
        Some(name) => name,
        None => "",
    }
}
