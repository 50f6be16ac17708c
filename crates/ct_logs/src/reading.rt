//! From files to their bytes.

ghost use Rattle.std.specs.Prelude.{◌≡◌, ◌<◌, ◌^◌, ◌++◌, ◌∷◌, [], IfErr, IfOk, IfSome, OnOk, length, map, ⊤};
ghost use Rattle.ct_judge.specs.declared.recording.TheConstants.{MAX_LEN};
ghost use Rattle.ct_streams.specs.Streams.{read_part};
ghost use Rattle.ct_logs.specs.Files.{AreTextsIn, IsTextIn, IsTooLong, texts_of};
ghost use Rattle.ct_logs.specs.Silence.{IsNoLogs, IsSilent};

use crate::merge_fault::MergeFault;
use ct_judge::MAX_LEN;
use ct_streams::{FileFault, Files, InputFault, NamedFault, Source, read_all};
use std::alloc::{AllocError, Global};

// The bytes of the files of these names.
pub(crate) fn read_texts<F: Files>(
    alloc: Global,
    files: &F,
    names: &[&str],
) -> Result<Vec<Vec<u8>>, MergeFault>
    ensures ok { IfOk result (λ texts. AreTextsIn (F.bytes files.now) (map (λ name. name.now) names.now) (texts_of texts.items)) }
    ensures fault { IfErr result (IsNoLogs (IsTooLong (F.bytes files.now) (map (λ name. name.now) names.now))) }
{
    let mut texts = Vec::new(alloc);
    for name in names {
        let text = match read_text(alloc, files, name) {
            Ok(text) => text,
            Err(fault) => return Err(fault),
        };
        match push(&mut texts, text) {
            Ok(()) => {}
            Err(_) => return Err(MergeFault::Memory),
        }
    }
    Ok(texts)
}

fn push(texts: &mut Vec<Vec<u8>>, text: Vec<u8>) -> Result<(), AllocError>
    ensures { OnOk result (texts.new.items ≡ texts.old.items ++ text ∷ []) }
{
    match texts.push(text) {
        Ok(()) => Ok(()),
        Err(_) => Err(AllocError),
    }
}

// The bytes of the file of this name.
fn read_text<F: Files>(alloc: Global, files: &F, name: &str) -> Result<Vec<u8>, MergeFault>
    ensures ok { IfOk result (λ text. IsTextIn (F.bytes files.now) name.now text.items) }
    ensures fault { IfErr result (IsNoLogs (IfSome (F.bytes files.now name.now) (λ all. MAX_LEN < length all))) }
{
    let reader = match files.open(name) {
        Ok(reader) => reader,
        Err(fault) => return Err(unread(alloc, name, fault)),
    };
    match bytes_of(alloc, reader) {
        Ok(bytes) if bytes.len() > MAX_LEN => Err(too_long(alloc, name)),
        Ok(bytes) => Ok(bytes),
        Err(InputFault::Reader) => Err(unread(alloc, name, FileFault::Read)),
        Err(InputFault::Memory) => Err(MergeFault::Memory),
    }
}

// What the reader has.
fn bytes_of<R: Source + Drop>(alloc: Global, reader: R) -> Result<Vec<u8>, InputFault>
    requires { R.failures reader < 2 ^ 63 }
    ensures { IfOk result (λ bytes. IfSome (R.left reader) (λ all. bytes.items ≡ read_part all)) }
{
    let mut reader = reader;
    read_all(alloc, &mut reader)
}

// A file that has more bytes than a log.
pub(crate) fn too_long(alloc: Global, name: &str) -> MergeFault
    ensures { IsNoLogs ⊤ result }
{
    match format!(in alloc; "{name}: too long") {
        Ok(text) => MergeFault::NoLogs(text),
        Err(_) => MergeFault::Memory,
    }
}

// A file that is not read.
pub(crate) fn unread(alloc: Global, name: &str, fault: FileFault) -> MergeFault
    ensures { IsSilent result }
{
    match told(alloc, name, fault) {
        Ok(text) => MergeFault::File { fault, text },
        Err(_) => MergeFault::Memory,
    }
}

fn told(alloc: Global, name: &str, fault: FileFault) -> Result<String, AllocError> {
    let named = NamedFault { name, fault };
    format!(in alloc; "{named}")
}
