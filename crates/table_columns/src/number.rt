ghost use Rattle.std.specs.Prelude.{◌≤◌, ◌^◌};
ghost use Rattle.table_columns.specs.Columns.{IsNumber, number_rules};
ghost use Rattle.table_columns.specs.Read.{Reads};

use crate::kinds::NumberKinds;
use text_num::read_decimal;

impl<K: Copy> NumberKinds<K> {
    /// Reads a number from `least` to `most`, in units of the last of `places` places. `number` where
    /// the text is no decimal with these places, `range` where it is outside the bounds.
    pub fn read(self, text: &[u8], places: u32, least: i64, most: i64) -> Result<i64, K>
        requires { places ≤ 3 }
        ensures { Reads (number_rules self places least most text.now) (IsNumber places least most text.now) result }
    {
        let Some(value) = read_decimal(text, places) else {
            return Err(self.number);
        };
        if value < least || most < value {
            return Err(self.range);
        }
        Ok(value)
    }
}
