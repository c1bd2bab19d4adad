//! Laws of the table of names. Each function here computes nothing: what it promises is the law.

ghost use Rattle.std.specs.Prelude.{◌≡◌, map, length};
ghost use Rattle.base_data.specs.Op.{name_count, op_text};
ghost use Rattle.base_data.specs.OpNames.{op_rows};

/// Each constant is the place of its name in the table, so no two names share a number; and no name of
/// the table lacks a constant.
pub fn each_number_is_the_place_of_its_name()
    ensures places { map (λ row. op_text row.0) op_rows ≡ map (λ row. row.1) op_rows }
    ensures all { length op_rows ≡ name_count }
{}
