//! What is known of the tables: worked values, and the rule of the S boxes.
ghost use Rattle.std.specs.Prelude.{◌≡◌, ◌<◌, length, if◌then◌else◌, Some, None, nat_lt};
ghost use Rattle.std.specs.Option.{option_map};
ghost use Rattle.cipher.specs.Rows.{row as row_of, EachOnce};
ghost use Rattle.cipher.specs.WorkedValues.{worked_value_list, Hold};

use super::tables::S_BOXES;

/// How many worked values of published examples are proved of the definitions: all that the table has.
pub fn worked_values() -> usize
    ensures hold { Hold worked_value_list }
    ensures count { result ≡ length worked_value_list }
{
    6
}

/// Row `row` of the 32 of the S boxes, four to a box; `None` for another number.
pub fn substitution_row(row: usize) -> Option<&'static [u8]>
    ensures value { option_map (λ s. s.now) result ≡ (if nat_lt row 32 then Some (row_of row) else None) }
    ensures once { row < 32 → EachOnce (row_of row) }
{
    if row < 32 {
        Some(&S_BOXES[row * 16..row * 16 + 16])
    } else {
        None
    }
}
