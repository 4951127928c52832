//! Which key space, which group and which ledgers the parts of a fill are of, and which limit it keeps.
ghost use Rattle.std.specs.Prelude.{ℕ, ℤ};
ghost use Rattle.sf_fill_keys.specs.Spaces.{SpaceId};
ghost use Rattle.sf_group_rows.specs.Tokens.{GroupValue};
ghost use Rattle.sf_fill_counters.specs.Names.{LedgerNames};

use std::marker::Brand;

/// The names of a fill. A call of a program picks them; nothing of them exists when it runs.
///
/// Two nested calls pick them: the key space's name where the values' type is made, and the others where the group is
/// there.
pub trait Naming {
    /// The key space whose spots its values keep.
    ghost space: { SpaceId };

    /// The group whose letters its caches keep.
    ghost group: { GroupValue };

    /// How many getters there are.
    ghost getters: { ℕ };

    /// The ledger of each counter.
    ghost ledgers: { LedgerNames };

    /// How many bytes its caches keep at most; nothing where that is 0 or less.
    ghost limit: { ℤ };
}

impl Naming for Brand {
    ghost use Rattle.std.specs.Prelude.{pos};
    ghost use Rattle.sf_fill_counters.specs.Nowhere.{no_space, no_group, no_ledgers};

    ghost space = { no_space };

    ghost group = { no_group };

    ghost getters = { 0 };

    ghost ledgers = { no_ledgers };

    ghost limit = { pos 0 };
}
