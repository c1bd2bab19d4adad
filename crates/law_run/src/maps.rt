//! A binding map has the faults of core text.
//!
//! For a map each library and the program are expanded as for the core text, and their links are kept beside their
//! records. So what ends an expansion ends both, at one fault; only what core text has no words for, `syntax` in a
//! run, is no fault of a map.
//!
//! Nothing is computed here: each function stands for the law that it ensures.

ghost use Rattle.law_run.specs.Mapped.{MapFaultsAreFaults, TextsHaveMaps};

/// Where a program has a fault in place of a map, its core text has the same fault.
pub fn faults_of_maps_are_those_of_texts()
    ensures { MapFaultsAreFaults }
{}

/// Where a program has a core text, it has a map.
pub fn a_text_has_a_map()
    ensures { TextsHaveMaps }
{}
