//! Compiled libraries: what expansion makes of a library or a program.

use crate::binding::Binding;
use crate::code::Core;
use base_data::imported_name::ImportedName;
use base_data::items::Items;
use base_data::library::LibName;
use base_data::name::Label;
use base_data::symbol::Symbol;
use stx_tree::frame_row::FrameRow;

/// What a program does, line by line.
#[derive(Drop)]
pub enum Line {
    /// Defines the variable of a label.
    Define(Label, Core),
    Expr(Core),
}

/// What expansion makes of a library, or of a program.
#[derive(Drop)]
pub struct CompiledLibrary {
    /// The path of its file.
    pub path: Symbol,
    pub name: LibName,
    pub version: Items<u64>,
    /// The labels that it exports, each with its external name.
    pub exports: Items<ImportedName>,
    /// What its own labels are bound to.
    pub bindings: Items<(Label, Binding)>,
    /// The rows of its own frames.
    pub frames: Items<FrameRow>,
    /// What it does when it is run.
    pub run: Items<Line>,
    /// The other libraries whose variables its lines mention, each once in order of first place.
    pub refs: Items<LibName>,
}
