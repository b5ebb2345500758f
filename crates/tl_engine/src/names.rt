//! Which engine it is: what its passes, its shares and what lies behind its lock all know of it by
//! their types alone. The name is picked once the opening is there.
use std::marker::Brand;
use std::sync::ledger::Ledger;

/// The name of an engine, which its passes, its shares and what lies behind its lock carry too. As
/// a ledger it names the one in which the commits and the breaks are counted.
pub trait Named: Ledger {
    ghost use Rattle.std.specs.Prelude.{ℕ, Bool, List};
    ghost use Rattle.atomic_table.specs.Seated.{TableId};
    ghost use Rattle.tl_types.specs.declared.commits.Entry.{Entry};
    ghost use Rattle.tl_types.specs.declared.limits.Limits.{Limits};

    // The table of its head.
    ghost table: { TableId };

    // The entries at its opening.
    ghost first_entries: { List Entry };

    // The disk's count of faults at its opening.
    ghost first_count: { ℕ };

    // Its limits.
    ghost limits: { Limits };

    // Whether the disk told what a read gives before its opening.
    ghost told: { Bool };
}

// Where a function is called with `Brand`, the caller picks the names; these are not read then.
impl Named for Brand {
    ghost use Rattle.std.specs.Prelude.{[], false};
    ghost use Rattle.tl_types.specs.Limits.{standard_limits};

    ghost table = { record {
      words = 0;
      slots = 0;
      views_name = 0;
      atom = 0;
      block = 0;
      offset = 0;
      slot_names = [];
    } };

    ghost first_entries = { [] };

    ghost first_count = { 0 };

    ghost limits = { standard_limits };

    ghost told = { false };
}
