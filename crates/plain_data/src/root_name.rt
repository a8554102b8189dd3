// Which names may stand for the root of a dataset.
ghost use Rattle.std.specs.Prelude.{◌≡◌, ◌==◌, IsTrue};
ghost use Rattle.std.specs.List.{slice_split, list_all};
ghost use Rattle.std.specs.Str.{IsUtf8};
ghost use Rattle.plain_data.specs.RootName as root;

/// The greatest number of bytes of a root name.
const LONGEST_ROOT_NAME: usize = 200;

/// Whether bytes are a root name: 1 to 200 bytes, one or more parts with `/` between them. A part has at
/// least one byte, each a letter, a digit, `_`, `-` or `.`, and is neither `.` nor `..`. It takes no memory.
#[tactic(auto, using(crate::proofs::RootNameLemmas::root_names_are_text))]
pub fn is_root_name(name: &[u8]) -> bool
    ensures root_name { result ≡ root.is_root_name name.now }
    ensures text { IsTrue result → IsUtf8 name.now }
{
    name.len() <= LONGEST_ROOT_NAME && has_parts(name)
}

fn has_parts(name: &[u8]) -> bool
    ensures { result ≡ list_all root.is_part (slice_split (λ b. b == 47) name.now) }
{
    name.split(|byte| *byte == b'/').all(is_part)
}

/// Whether bytes may stand between the strokes of a root name.
fn is_part(part: &[u8]) -> bool
    ensures { result ≡ root.is_part part.now }
{
    !part.is_empty() && has_name_bytes(part) && !matches!(part, b"." | b"..")
}

fn has_name_bytes(part: &[u8]) -> bool
    ensures { result ≡ list_all root.is_name_byte part.now }
{
    part.iter().all(|byte| is_name_byte(*byte))
}

fn is_name_byte(byte: u8) -> bool
    ensures { result ≡ root.is_name_byte byte }
{
    byte.is_ascii_alphanumeric() || matches!(byte, b'_' | b'-' | b'.')
}
