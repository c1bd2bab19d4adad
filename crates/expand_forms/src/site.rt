//! Where forms stand.

ghost use Rattle.std.specs.Prelude.{◌≡◌, IfOk};
ghost use Rattle.expand_forms.specs.Site.{at_depth, at_place, one_deeper, site_in, site_of};

use base_data::memory::Memory;
use base_data::span::Span;
use expand_heads::depth::deeper;
use expand_heads::taken::{BodyAt, Waiting};
use std::marker::Model;

/// Where a form stands.
#[derive(Drop)]
pub struct Site<'a> {
    /// Where a form without a span stands.
    pub place: &'a Span,
    /// Its level (R6RS 7.2): 0 at run time, and one more in the expression of a keyword.
    pub level: u32,
    /// How many core forms and applications stand round it. With more than `MOST_ROUND` it is refused.
    pub depth: u16,
}

impl<'a> Model for Site<'a> {
    ghost use Rattle.expand_forms.specs.Site.{Site, site_code};

    ghost Value = { Site };

    ghost coded = { site_code };

    ghost view = { λ s. record { place = s.place.now; level = s.level; depth = s.depth } };
}

impl<'a> Site<'a> {
    /// The site of what lies in a form here.
    pub(crate) fn one_deeper(&self) -> Site<'a>
        ensures { result ≡ one_deeper self.now }
    {
        Site {
            place: self.place,
            level: self.level,
            depth: deeper(self.depth),
        }
    }

    /// The site of what comes of a use here, at the place of the use.
    pub(crate) fn at_place<'b>(&self, place: &'b Span) -> Site<'b>
        ensures { result ≡ at_place place.now self.now }
    {
        Site {
            place,
            level: self.level,
            depth: self.depth,
        }
    }

    /// Another owner of the place.
    pub(crate) fn share_place(&self) -> Result<Span, Memory>
        ensures { IfOk result (λ p. p ≡ self.now.place) }
    {
        self.place.share()
    }

    /// The site here, at another depth.
    pub(crate) fn at_depth(&self, depth: u16) -> Site<'a>
        ensures { result ≡ at_depth depth self.now }
    {
        Site {
            place: self.place,
            level: self.level,
            depth,
        }
    }
}

/// The site of a form of a body.
pub(crate) fn site_in<'a>(at: &'a BodyAt, depth: u16) -> Site<'a>
    ensures { result ≡ site_in at.now depth }
{
    Site {
        place: &at.place,
        level: at.level,
        depth,
    }
}

/// The site of a form that has waited, in a body of this level.
pub(crate) fn site_of<'a>(level: u32, waiting: &'a Waiting) -> Site<'a>
    ensures { result ≡ site_of level waiting.now }
{
    Site {
        place: &waiting.place,
        level,
        depth: waiting.depth,
    }
}
