//! The start of a source that is skipped.

ghost use Rattle.std.specs.Prelude.{◌≡◌, ◌+◌, ◌<◌, ◌≤◌, ◌^◌, length, IfOk};
ghost use Rattle.base_data.specs.Gives.{Gives};
ghost use Rattle.read_lexer.specs.Start.{start_of, mark_end, is_run_line};

use crate::gap::{Until, rest_of_line};
use base_data::fault::Stop;
use base_data::symbol::Symbol;
use std::alloc::Global;

/// How many bytes the start takes that is skipped: a byte order mark, and then a first line that
/// begins with `#!/` or `#! `, up to its line end.
pub fn start_of(alloc: Global, file: &Symbol, bytes: &[u8]) -> Result<u32, Stop>
    requires { length bytes.now < 2 ^ 32 }
    ensures gives { Gives (λ x. x) result (start_of file.now bytes.now) }
    ensures within { IfOk result (λ to. to ≤ length bytes.now) }
{
    let at = mark_end(bytes);
    let (_, rest) = bytes.split_at(at as usize);
    if is_run_line(rest) {
        return rest_of_line(alloc, file, rest, Until::LineEnd, at);
    }
    Ok(at)
}

fn mark_end(bytes: &[u8]) -> u32
    ensures gives { result ≡ mark_end bytes.now }
    ensures within { result ≤ length bytes.now }
{
    if bytes.starts_with(b"\xEF\xBB\xBF") {
        3
    } else {
        0
    }
}

/// Whether the bytes begin with a line for the system, which says how to run the file.
fn is_run_line(bytes: &[u8]) -> bool
    ensures { result ≡ is_run_line bytes.now }
{
    bytes.starts_with(b"#!/") || bytes.starts_with(b"#! ")
}
