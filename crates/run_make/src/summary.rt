//! The line that `--make N` writes.

ghost use Rattle.std.specs.Prelude.{◌≡◌, IfOk};
ghost use Rattle.std.specs.String.{string_bytes};
ghost use Rattle.run_make.specs.Summary.{lines_in, summary};

use base_data::memory::Memory;
use itoa::Buffer;
use std::alloc::Global;

fn lines_in(text: &[u8]) -> usize
    ensures { result ≡ lines_in text.now }
{
    text.iter().filter(|byte| **byte == b'\n').count()
}

/// The line that tells the number of libraries, and the lines and bytes of a text.
pub fn summary(alloc: Global, count: u32, text: &str) -> Result<String, Memory>
    ensures { IfOk result (λ line. string_bytes line ≡ summary count text.now) }
{
    let mut line = String::from_str(alloc, "libraries ")?;
    line.push_str(Buffer::new().format(count))?;
    line.push_str(" lines ")?;
    line.push_str(Buffer::new().format(lines_in(text.as_bytes())))?;
    line.push_str(" bytes ")?;
    line.push_str(Buffer::new().format(text.len()))?;
    line.push_str("\n")?;
    Ok(line)
}
