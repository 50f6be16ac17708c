use super::*;
use ct_streams::{Counted, Failed, Sink, Source};

// Three members, of which one crashes: the others decide in one round, and deliver.
const RECORD: &str =
    "{\"batch\":1048560,\"cells\":4,\"n\":3,\"steps\":[[\"submit\",1,[\"set\",0,7]],[\"receive\",1,1],[\"receive\",2,2],[\"crash\",3],[\"begin\",1],[\"begin\",2],[\"enter\",1],[\"enter\",2],[\"receive\",2,7],[\"receive\",2,8],[\"choose\",2,1],[\"receive\",1,9],[\"adopt\",1],[\"receive\",2,10],[\"adopt\",2],[\"receive\",2,12],[\"receive\",2,13],[\"conclude\",2],[\"receive\",2,15],[\"deliver\",2],[\"receive\",1,14],[\"deliver\",1]],\"version\":3}";

const REPORT: &str =
    "group 3 majority 2 cells 4\nsteps 22 sent 19 posted 1\nmember 1 up instance 1 idle\nreceived 1.1\ndecided 1:1.1\ndelivered 1.1\ntable 0=7\nmember 2 up instance 1 idle\nreceived 1.1\ndecided 1:1.1\ndelivered 1.1\ntable 0=7\nmember 3 crashed instance 0 idle\nreceived -\ndecided -\ndelivered -\ntable -\n";

// How many first bytes of the record are no JSON, before more of them are something else.
fn cut_short(alloc: Global) -> usize {
    let bytes = RECORD.as_bytes();
    for end in 0..bytes.len() {
        if !matches!(read_record(alloc, &bytes[..end]), Err(ReadFault::NotJson)) {
            return end;
        }
    }
    bytes.len()
}

#[test]
fn a_record_cut_short_is_no_json(rt: HostRuntime) {
    assert_eq!(rt; cut_short(rt.alloc()), RECORD.len());
}

// Gives the record byte by byte, and fails before the byte of the number `end`.
#[derive(Drop)]
struct Bytes {
    end: usize,
    next: usize,
    failures: u64,
}

impl Source for Bytes {
    ghost use Rattle.std.specs.Prelude.{None};

    ghost left = { λ _. None };

    ghost failures = { λ s. s.failures };

    fn read(&mut self, buffer: &mut [u8]) -> Result<usize, Failed> {
        if self.next >= self.end {
            self.failures += 1;
            return Err(Failed);
        }
        match (RECORD.as_bytes().get(self.next), buffer.first_mut()) {
            (Some(byte), Some(place)) => {
                *place = *byte;
                self.next = self.next.saturating_add(1);
                Ok(1)
            }
            _ => Ok(0),
        }
    }
}

// What is answered to the record byte by byte, up to a failure, how often that failed, and what is written.
fn read_up_to(alloc: Global, end: usize) -> (Result<(), ProgramFault>, u64, Vec<u8>) {
    let mut reader = Bytes {
        end,
        next: 0,
        failures: 0,
    };
    let mut writer = Counted::new(Vec::new(alloc));
    let answer = run_replay(alloc, &mut reader, &mut writer);
    (answer, reader.failures, writer.into_inner())
}

// Whether the report is written where each read gives one byte.
fn is_read_by_bytes(alloc: Global) -> bool {
    let (answer, failures, written) = read_up_to(alloc, usize::MAX);
    answer == Ok(()) && failures == 0 && written.as_slice() == REPORT.as_bytes()
}

// Whether the reader that fails after so many bytes is named, is read no more, and nothing is written.
fn fails_after(alloc: Global, end: usize) -> bool {
    let (answer, failures, written) = read_up_to(alloc, end);
    answer == Err(ProgramFault::Reader) && failures == 1 && written.is_empty()
}

// After how many bytes a reader that fails is answered otherwise.
fn fails_otherwise(alloc: Global) -> Option<usize> {
    (0..=RECORD.len()).find(|end| !fails_after(alloc, *end))
}

#[test]
fn each_read_may_give_one_byte_or_fail(rt: HostRuntime) {
    assert!(rt; is_read_by_bytes(rt.alloc()));
    assert_eq!(rt; fails_otherwise(rt.alloc()), None);
}

// Takes seven bytes in each call, so many at most, and fails in the call behind them.
#[derive(Drop)]
struct Sevens {
    most: usize,
    taken: Vec<u8>,
    failures: u64,
}

impl Sink for Sevens {
    ghost use Rattle.std.specs.Prelude.{None};

    ghost written = { λ _. None };

    ghost failures = { λ s. s.failures };

    fn write(&mut self, bytes: &[u8]) -> Result<usize, Failed> {
        let n = bytes.len().min(7);
        if self.taken.len() >= self.most || self.taken.extend_from_slice(&bytes[..n]).is_err() {
            self.failures += 1;
            return Err(Failed);
        }
        Ok(n)
    }
}

// Whether the writer that fails after so many bytes is named, fails once, and has what it took before.
fn stops_after(alloc: Global, most: usize) -> bool {
    let mut reader = Counted::new(RECORD.as_bytes());
    let mut writer = Sevens {
        most,
        taken: Vec::new(alloc),
        failures: 0,
    };
    let answer = run_replay(alloc, &mut reader, &mut writer);
    answer == Err(ProgramFault::Write)
        && writer.failures == 1
        && Some(writer.taken.as_slice()) == REPORT.as_bytes().get(..most)
}

// After how many bytes a writer that fails is answered otherwise.
fn stops_otherwise(alloc: Global) -> Option<usize> {
    (0..REPORT.len())
        .step_by(7)
        .find(|most| !stops_after(alloc, *most))
}

// Whether a writer that takes the first seven bytes of the report and none of the others is named.
fn fails_where_nothing_is_taken(alloc: Global) -> bool {
    let mut room = [0u8; 7];
    let mut reader = Counted::new(RECORD.as_bytes());
    let answer = run_replay(alloc, &mut reader, &mut Counted::new(&mut room[..]));
    answer == Err(ProgramFault::Write) && room == *b"group 3"
}

#[test]
fn each_write_may_fail(rt: HostRuntime) {
    assert_eq!(rt; stops_otherwise(rt.alloc()), None);
    assert!(rt; fails_where_nothing_is_taken(rt.alloc()));
}

// The lines of those faults that the programs tell in other words, or never.
static FAULTS: [(ProgramFault, &str); 3] = [
    (
        ProgramFault::Read(ReadFault::Shape { at: 2 }),
        "record: shape at 2",
    ),
    (ProgramFault::Read(ReadFault::Version), "record: version"),
    (ProgramFault::Exchanged, "world exchanged"),
];

// Whether it is this text.
fn is_text(text: Result<String, AllocError>, wanted: &str) -> bool {
    match text {
        Ok(text) => text.as_str() == wanted,
        Err(_) => false,
    }
}

// The first of the lines that is another.
fn told_otherwise(alloc: Global) -> Option<&'static str> {
    for (fault, line) in &FAULTS {
        if !is_text(format!(in alloc; "{fault}"), *line) {
            return Some(*line);
        }
    }
    None
}

#[test]
fn faults_have_lines(rt: HostRuntime) {
    assert_eq!(rt; told_otherwise(rt.alloc()), None);
}
