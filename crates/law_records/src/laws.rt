//! The law of the forms of records. The function here computes nothing: what it promises is the law.

ghost use Rattle.law_records.specs.RecordTypes.{RecordTypesAreDefined, DefinitionsAreStoodFor, OtherRecordTypesAreBad, DescriptorsAreWritten};

/// A form of records expands exactly to the definitions that it stands for by the cases of the
/// libraries report: the calls of the procedures of 6.3, under which names, with what a missing clause
/// stands for. Any other is `BadForm`, at the form or at one of its clauses.
pub fn record_forms_are_those_of_the_report()
    ensures written { RecordTypesAreDefined }
    ensures found { DefinitionsAreStoodFor }
    ensures others { OtherRecordTypesAreBad }
    ensures descriptors { DescriptorsAreWritten }
{}
