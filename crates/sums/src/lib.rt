// The two sums of a block, by columns: its bytes as rows of 32, each under the one before it. (Inner functions.)
#![tactic(auto)]

ghost use Rattle.std.specs.Prelude.{◌≡◌, ◌+◌, ◌*◌, ◌%◌, length, take};
ghost use Rattle.laws.specs.Sums.{weighted};
ghost use Rattle.laws.specs.Columns.{added};
ghost use Rattle.sums.specs.Checksums.{plain_sum, position_sum};
ghost use Rattle.sums.specs.Adding.{Room, Narrow};

// The two sums of a block's bytes, S and W.
#[derive(Clone, Copy, PartialEq, Eq)]
pub struct Sums {
    pub plain: u16,
    pub position: u16,
}

// Rows that were added: the sums of their columns, and the shifts, which take in what the columns held before each row. Two lists and not one of
// pairs, and an index for both: the compiler adds each as vectors.
#[derive(Clone, Copy)]
struct Columns {
    sums: [u16; 32],
    shifts: [u16; 32],
}

impl Columns {
    // Adds the sums to the shifts, then the row to the sums.
    fn add(&mut self, row: &[u8])
        requires { Room self.old.sums self.old.shifts row.now }
        ensures sums_after { self.new.sums ≡ added self.old.sums row.now }
        ensures shifts_after { self.new.shifts ≡ added self.old.shifts (take (length row.now) self.old.sums) }
    {
        for (j, byte) in row.iter().enumerate() {
            self.shifts[j] += self.sums[j];
            self.sums[j] += u16::from(*byte);
        }
    }

    // S and W of all rows: a shift is a row's width further from the start. The remainders are taken once, at the end.
    fn totals(self) -> Sums
        requires { Narrow self.sums self.shifts }
        ensures plain_value { result.plain ≡ weighted (λ i. 1) self.sums % 65521 }
        ensures position_value { result.position ≡ (weighted (λ i. i + 1) self.sums + 32 * weighted (λ i. 1) self.shifts) % 65521 }
    {
        let mut plain = 0u32;
        let mut position = 0u32;
        let mut shifted = 0u32;
        for (j, column) in self.sums.iter().enumerate() {
            // Twelve bits are cut out so that the compiler multiplies narrow numbers. j numbers the columns of both lists, so it is cast.
            let column = u32::from(*column & 4095);
            plain += column;
            position += (j as u32 + 1) * column;
            shifted += u32::from(self.shifts[j]);
        }
        // Remainders fit two bytes.
        Sums {
            plain: (plain % 65521) as u16,
            position: ((position + 32 * shifted) % 65521) as u16,
        }
    }
}

// S and W of 508 bytes. The last row is short, and the rows are added from the last to the first. As arrays they have a width that the compiler
// knows, so that it adds a row without a loop.
pub fn sums_of(bytes: &[u8; 508]) -> Sums
    ensures { (result.plain ≡ plain_sum bytes.now) × (result.position ≡ position_sum bytes.now) }
{
    let mut columns = Columns {
        sums: [0; 32],
        shifts: [0; 32],
    };
    let (rows, last) = bytes.as_chunks::<32>();
    columns.add(last);
    for row in rows.iter().rev() {
        columns.add(row);
    }
    columns.totals()
}
