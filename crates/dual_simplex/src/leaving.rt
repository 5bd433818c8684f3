use crate::tableau::Tableau;

/// By how much a value may pass a bound unseen: 2^-20.
pub(crate) const TOLERANCE: i64 = 1 << 12;

/// A row whose value passes a bound: below the lower one or above the upper one, and by how much.
#[derive(Clone, Copy)]
pub(crate) struct Leaving {
    pub row: usize,
    pub is_below: bool,
    pub gap: i64,
}

impl Tableau {
    // The row that passes a bound by the most; none where all rows are within their bounds.
    pub(crate) fn worst_row(&self) -> Option<Leaving> {
        let mut worst = None;
        let mut most = TOLERANCE;
        for (row, basic) in self.basics.iter().enumerate() {
            let below = basic.variable.low.wrapping_sub(basic.value);
            let above = basic.value.wrapping_sub(basic.variable.high);
            let gap = below.max(above);
            if gap > most {
                most = gap;
                worst = Some(Leaving {
                    row,
                    is_below: below > above,
                    gap,
                });
            }
        }
        worst
    }

    // The row as it stands now, after columns moved: by how much it passes its bound.
    pub(crate) fn gap_of(&self, leaving: Leaving) -> i64 {
        let Some(basic) = self.basics.get(leaving.row) else {
            return 0;
        };
        if leaving.is_below {
            basic.variable.low.wrapping_sub(basic.value)
        } else {
            basic.value.wrapping_sub(basic.variable.high)
        }
    }
}
