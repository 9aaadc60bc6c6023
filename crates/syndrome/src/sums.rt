// The two sums of a set of cells.
ghost use Rattle.std.specs.Prelude.{◌≡◌, bit_xor};

use std::ops::BitXor;

#[derive(Clone, Copy)]
pub struct Sums {
    pub row: u64,
    pub column: u64,
}

// Those of two sets of cells together: of a cell that is in both, nothing is left.
impl BitXor for Sums {
    type Output = Sums;

    ghost bitxor_gives = { λ a b r. r ≡ record { row = bit_xor a.row b.row; column = bit_xor a.column b.column } };

    fn bitxor(self, other: Sums) -> Sums {
        Sums {
            row: self.row ^ other.row,
            column: self.column ^ other.column,
        }
    }
}
