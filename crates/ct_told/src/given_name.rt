//! Names that an input gives to what there is none of.

ghost use Rattle.std.specs.Prelude.{◌≡◌, OnOk};
ghost use Rattle.std.specs.List.{list_all};
ghost use Rattle.ct_text.specs.Adds.{Adds};
ghost use Rattle.ct_told.specs.GivenNames.{given_text, is_plain, is_printed};

use ct_grammar::LONGEST_WORD;
use std::alloc::AllocError;

/// Puts the name behind the line, between the marks; of one that is long, empty or not in plain ASCII how many bytes it has.
pub(crate) fn push_given(
    line: &mut String,
    mark: &str,
    kind: &str,
    name: &str,
) -> Result<(), AllocError>
    ensures { OnOk result (Adds line.old line.new (given_text mark.now kind.now name.now)) }
{
    if is_plain(name) {
        return write!(line, "{mark}{name}{mark}");
    }
    let count = name.len();
    write!(line, "a {kind} of {count} bytes")
}

// Whether the name is shown as it stands.
fn is_plain(name: &str) -> bool
    ensures { result ≡ is_plain name.now }
{
    !name.is_empty() && name.len() <= LONGEST_WORD && is_printed(name.as_bytes())
}

// Whether each byte is a sign of ASCII.
fn is_printed(bytes: &[u8]) -> bool
    ensures { result ≡ list_all is_printed bytes.now }
{
    for byte in bytes {
        if !(b'!' <= *byte && *byte <= b'~') {
            return false;
        }
    }
    true
}
