ghost use Rattle.std.specs.Prelude.{◌≡◌, ◌++◌, OnOk, OnErr, take, vec_len};
ghost use Rattle.std.specs.Fmt.{signed_decimal};
ghost use Rattle.oct_text.specs.Printing.{list_spelling};

use crate::NoMemory;
use itoa::Buffer;
use std::alloc::Global;

/// Appends a number in decimal: a minus where it is negative, no plus, no leading zeros, and `0` for 0.
///
/// It writes at most 20 bytes. After an error `out` holds what it held.
pub fn put_number(alloc: Global, out: &mut Vec<u8>, value: i64) -> Result<(), NoMemory>
    ensures ok { OnOk result (out.new.items ≡ out.old.items ++ signed_decimal value) }
    ensures err { OnErr result (out.new.items ≡ out.old.items) }
{
    let mut buffer = Buffer::new();
    put_text(alloc, out, buffer.format(value).as_bytes())
}

/// Appends these bytes.
///
/// It copies them once. After an error `out` holds what it held.
pub fn put_text(alloc: Global, out: &mut Vec<u8>, text: &[u8]) -> Result<(), NoMemory>
    ensures ok { OnOk result (out.new.items ≡ out.old.items ++ text.now) }
    ensures err { OnErr result (out.new.items ≡ out.old.items) }
{
    let _ = alloc;
    out.extend_from_slice(text)
}

/// Appends numbers in decimal with one space between each two: none before the first, none behind the last.
///
/// Its time is that of the bytes written. After an error `out` holds what it held.
pub fn put_list(alloc: Global, out: &mut Vec<u8>, numbers: &[u32]) -> Result<(), NoMemory>
    ensures ok { OnOk result (out.new.items ≡ out.old.items ++ list_spelling numbers.now) }
    ensures err { OnErr result (out.new.items ≡ out.old.items) }
{
    let before = out.len();
    let written = put_spaced(alloc, out, numbers);
    if written.is_err() {
        out.truncate(before);
    }
    written
}

/// The numbers appended, or as many bytes of them as there was memory for.
fn put_spaced(alloc: Global, out: &mut Vec<u8>, numbers: &[u32]) -> Result<(), NoMemory>
    ensures ok { OnOk result (out.new.items ≡ out.old.items ++ list_spelling numbers.now) }
    ensures kept { take (vec_len out.old) out.new.items ≡ out.old.items }
{
    let [first, rest @ ..] = numbers else {
        return Ok(());
    };
    let mut buffer = Buffer::new();
    put_text(alloc, out, buffer.format(*first).as_bytes())?;
    for number in rest {
        put_text(alloc, out, b" ")?;
        put_text(alloc, out, buffer.format(*number).as_bytes())?;
    }
    Ok(())
}
