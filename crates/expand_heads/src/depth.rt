//! How deep forms may nest.

ghost use Rattle.std.specs.Prelude.{◌≡◌};
ghost use Rattle.expand_heads.specs.Depth.{deeper};

/// At most so many core forms and applications may stand round a form.
pub const MOST_ROUND: u16 = 600;

/// The depth of what is in a form at this depth; what is too deep stays so. What is too deep already stays so.
pub fn deeper(depth: u16) -> u16
    ensures { result ≡ deeper depth }
{
    if depth > MOST_ROUND { depth } else { depth + 1 }
}
