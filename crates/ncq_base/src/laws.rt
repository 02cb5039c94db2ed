//! The law of atoms. The function does nothing: it is its contract.
ghost use Rattle.std.specs.Cmp.{IsTotalOrder};
ghost use Rattle.ncq_base.specs.Atoms.{atom_cmp};

/// The order of atoms is total.
pub fn order_is_total()
    ensures { IsTotalOrder atom_cmp }
{}
