// File names: which are valid, and how an entry holds one.
ghost use Rattle.std.specs.Prelude.{◌≡◌, ◌≤◌, length};
ghost use Rattle.directory.specs.Names.{barred, clean, named, title};

use disk::cause::*;
use disk::refusal::*;

// Whether no name may hold the byte: the end of a line, what commands are written with, and the padding.
pub fn is_barred(byte: u8) -> bool
    ensures { result ≡ barred byte }
{
    matches!(byte, b'\r' | b'"' | b'*' | b',' | b':' | b'=' | b'?' | 0xa0)
}

// Whether a name may hold all these bytes.
pub fn is_clean(bytes: &[u8]) -> bool
    ensures { result ≡ clean bytes.now }
{
    bytes.iter().all(|byte| !is_barred(*byte))
}

// The first sixteen bytes of a name, filled up with 0xa0.
fn padded(name: &[u8]) -> [u8; 16]
    requires { length name.now ≤ 16 }
    ensures { result ≡ title name.now }
{
    let mut title = [0xa0; 16];
    title[..name.len()].copy_from_slice(name);
    title
}

// A name as an entry holds it; only a valid one has such a form.
pub fn entry_name(name: &[u8]) -> Result<[u8; 16], Refusal>
    ensures { result ≡ named name.now }
{
    if name.is_empty() || name.len() > 16 || !is_clean(name) {
        return Err(Refusal::by_caller(Cause::BadName));
    }
    Ok(padded(name))
}
