//! The callees of each method, and ranks.
use racer_base::{Items, MethodId};

/// For each method the different analysed methods that it calls, and a rank.
#[derive(Drop)]
pub struct CallRows {
    pub(crate) rows: Items<Items<MethodId>>,
    pub(crate) ranks: Items<u32>,
}

impl CallRows {
    ghost use Rattle.std.specs.Prelude.{◌≡◌, ◌<◌, length};
    ghost use Rattle.core_code.specs.Chains.{row_of};
    ghost use Rattle.core_code.specs.Falling.{number_of};
    ghost use Rattle.core_code.specs.CalleeRows.{rows_in, ranks_in};

    /// The different methods that a method calls, in order of first call.
    pub fn row(&self, m: MethodId) -> &[MethodId]
        requires { m.0 < length (rows_in self.now) }
        ensures { result.now ≡ row_of (rows_in self.now) m }
    {
        self.rows.as_slice()[m.0 as usize].as_slice()
    }

    /// A number that is greater than those of the methods in the method's row.
    pub fn rank(&self, m: MethodId) -> u32
        requires { m.0 < length (ranks_in self.now) }
        ensures { result ≡ number_of (ranks_in self.now) m }
    {
        self.ranks.as_slice()[m.0 as usize]
    }
}
