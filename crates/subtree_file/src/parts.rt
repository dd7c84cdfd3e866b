// The two parts of a subtree file.
ghost use Rattle.std.specs.Prelude.{◌≡◌, ◌+◌, ◌≤◌, length, take, drop, codes};
ghost use Rattle.std.specs.Str.{bytes_eq};
ghost use Rattle.std.specs.Int.{w32, w64, from_le_bytes};
ghost use Rattle.implicit_tileset.specs.SubtreeFile.{parts_of};
ghost use Rattle.implicit_tileset.specs.FileForms.{file_parts, is_blank as is_blank_byte, is_json_form as has_json_form};
ghost use Rattle.subtree_file.specs.Parts.{ReadsParts, ReadsFileParts, parts_fault_number};

const HEADER_BYTES: usize = 24;

/// The JSON text of a subtree file and the bytes of its internal buffer, both with their padding (subtree binary
/// format).
#[derive(Clone, Copy)]
pub struct Parts<'b> {
    pub json: &'b [u8],
    pub binary: &'b [u8],
}

/// The JSON text of a subtree file of either form, and the bytes of its internal buffer, which a file in the JSON form
/// hasn't.
#[derive(Clone, Copy)]
pub struct FileParts<'b> {
    pub json: &'b [u8],
    pub binary: Option<&'b [u8]>,
}

/// Why a file has no parts: the first that holds, in this order (the numbers and the order are this project's own).
#[derive(Clone, Copy, Debug, PartialEq, Eq)]
pub enum PartsFault {
    /// It is shorter than a header, which has 24 bytes.
    ShortHeader,
    /// It doesn't begin with `subt`.
    BadMagic,
    /// Its version isn't 1.
    BadVersion,
    /// It ends before its parts do.
    Truncated,
}

impl PartsFault {
    /// The number in the table of faults of a subtree file, 3 to 6.
    pub fn number(self) -> u64
        ensures { result ≡ parts_fault_number self }
    {
        match self {
            PartsFault::ShortHeader => 3,
            PartsFault::BadMagic => 4,
            PartsFault::BadVersion => 5,
            PartsFault::Truncated => 6,
        }
    }
}

/// The parts of a file. Bytes behind them are passed over. The lengths of the header, each up to 2^64 - 1, are added
/// as whole numbers: no sum wraps.
pub fn read_parts<'b>(bytes: &'b [u8]) -> Result<Parts<'b>, PartsFault>
    ensures { ReadsParts (parts_of bytes.now) result }
{
    if bytes.len() < HEADER_BYTES {
        return Err(PartsFault::ShortHeader);
    }
    if !has_magic(bytes) {
        return Err(PartsFault::BadMagic);
    }
    if u32_at(bytes, 4) != 1 {
        return Err(PartsFault::BadVersion);
    }
    let room = (bytes.len() - HEADER_BYTES) as u64;
    let json = u64_at(bytes, 8);
    let binary = u64_at(bytes, 16);
    if json > room || binary > room - json {
        return Err(PartsFault::Truncated);
    }
    let json_end = HEADER_BYTES + json as usize;
    let binary_end = json_end + binary as usize;
    Ok(Parts {
        json: &bytes[HEADER_BYTES..json_end],
        binary: &bytes[json_end..binary_end],
    })
}

/// The parts of a file of either form: in the JSON form all its bytes are JSON text.
pub fn read_file_parts<'b>(bytes: &'b [u8]) -> Result<FileParts<'b>, PartsFault>
    ensures { ReadsFileParts (file_parts bytes.now) result }
{
    if is_json_form(bytes) {
        return Ok(FileParts {
            json: bytes,
            binary: None,
        });
    }
    let parts = read_parts(bytes)?;
    Ok(FileParts {
        json: parts.json,
        binary: Some(parts.binary),
    })
}

// The first byte that isn't a blank is an opening brace.
fn is_json_form(bytes: &[u8]) -> bool
    ensures { result ≡ has_json_form bytes.now }
{
    for byte in bytes {
        if !is_blank(*byte) {
            return *byte == b'{';
        }
    }
    false
}

fn is_blank(byte: u8) -> bool
    ensures { result ≡ is_blank_byte byte }
{
    byte == b' ' || byte == b'\t' || byte == b'\n' || byte == b'\r'
}

fn has_magic(bytes: &[u8]) -> bool
    requires { 24 ≤ length bytes.now }
    ensures { result ≡ bytes_eq (take 4 bytes.now) (codes "subt") }
{
    &bytes[..4] == b"subt".as_slice()
}

fn u32_at(bytes: &[u8], at: usize) -> u32
    requires { at + 4 ≤ length bytes.now }
    ensures { result ≡ from_le_bytes w32 (drop at bytes.now) }
{
    u32::from_le_bytes(*bytes[at..].first_chunk::<4>().unwrap())
}

fn u64_at(bytes: &[u8], at: usize) -> u64
    requires { at + 8 ≤ length bytes.now }
    ensures { result ≡ from_le_bytes w64 (drop at bytes.now) }
{
    u64::from_le_bytes(*bytes[at..].first_chunk::<8>().unwrap())
}
