ghost use Rattle.std.specs.Prelude.{◌≡◌, length};
ghost use Rattle.table_columns.specs.Read.{Reads};
ghost use Rattle.candidate_tables.specs.CandidateTable.{deviation_of, deviation_rules, figure_rules, height_deviation_of, height_rules, written_price, price_rules};
ghost use Rattle.candidate_tables.specs.Read.{AreFigures};

use crate::kind::Kind;
use point_tables::{FaultKind, NUMBER_KINDS};
use table_rows::TableRow;

// The bounds of a standard deviation, in hundredths of a millimetre or of a cc.
const LEAST_DEVIATION: i64 = 10;

const MOST_DEVIATION: i64 = 10_000;

// The largest price.
const MOST_PRICE: i64 = 1_000_000_000;

// The standard deviations and the price of a record.
#[derive(Clone, Copy)]
pub(crate) struct Figures {
    pub(crate) sd: u32,
    pub(crate) sdh: Option<u32>,
    pub(crate) price: u64,
}

// A standard deviation, in hundredths.
fn read_deviation(text: &[u8]) -> Result<u32, FaultKind>
    ensures { Reads (deviation_rules text.now) (λ value. value ≡ deviation_of text.now) result }
{
    match NUMBER_KINDS.read(text, 2, LEAST_DEVIATION, MOST_DEVIATION) {
        Ok(value) => Ok(value as u32),
        Err(broken) => Err(broken),
    }
}

// The standard deviation of the height, if the kind has one.
fn read_height(kind: Kind, text: &[u8]) -> Result<Option<u32>, FaultKind>
    ensures { Reads (height_rules kind text.now) (λ value. value ≡ height_deviation_of kind text.now) result }
{
    if !kind.rules().has_height_deviation {
        return Ok(None);
    }
    match read_deviation(text) {
        Ok(value) => Ok(Some(value)),
        Err(broken) => Err(broken),
    }
}

// The price.
fn read_price(text: &[u8]) -> Result<u64, FaultKind>
    ensures { Reads (price_rules text.now) (λ value. value ≡ written_price text.now) result }
{
    match NUMBER_KINDS.read(text, 0, 0, MOST_PRICE) {
        Ok(value) => Ok(value as u64),
        Err(broken) => Err(broken),
    }
}

// The standard deviations and the price of a record.
pub(crate) fn read_figures(kind: Kind, row: &TableRow) -> Result<Figures, FaultKind>
    requires { length row.now ≡ 8 }
    ensures { Reads (figure_rules kind row.now) (AreFigures kind row.now) result }
{
    let sd = read_deviation(row.field(5))?;
    let sdh = read_height(kind, row.field(6))?;
    let price = read_price(row.field(7))?;
    Ok(Figures { sd, sdh, price })
}
